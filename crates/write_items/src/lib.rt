// What a writer writes at one place of a sheet: a row of tags, a character, a token.
#![tactic(auto)]

pub mod unchecked;
