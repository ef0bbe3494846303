// The partial form of a checked sheet.
#![tactic(auto)]

pub mod unchecked;
