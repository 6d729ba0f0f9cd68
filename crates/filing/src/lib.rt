// What is done with one log: writes added, the last write on an item found, and what another server lacks sent over.
#![tactic(auto)]

pub mod adding;
pub mod finding;
pub mod sending;
