// The tokenized form of a checked sheet.
#![tactic(auto)]

pub mod unchecked;
