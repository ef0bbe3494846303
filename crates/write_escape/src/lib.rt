// The copies that the writers are made of: each writes bytes from a place on, and answers where they end.
#![tactic(auto)]

pub mod unchecked;
