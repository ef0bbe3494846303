// A line passed from one form to another, by way of lent buffers.
#![tactic(auto)]

pub mod unchecked;
