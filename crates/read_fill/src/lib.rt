// Laying down the sentence of a line in eight lent buffers.
#![tactic(auto)]

pub mod unchecked;
