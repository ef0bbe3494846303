// The stores that the acts of a line make in eight lent buffers.
#![tactic(auto)]

pub mod unchecked;
