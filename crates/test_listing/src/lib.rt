// The list of the tokens of a sheet, filled with given room: the records after the call, and the call's answer, by value.
#![tactic(auto)]

pub mod unchecked; // unchecked.rt: for a room of at most 64 records
