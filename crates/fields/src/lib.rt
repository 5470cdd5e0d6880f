#![tactic(auto)]

// Fields of both ends' records, set to any value by a phrase of the console.
//
// - `records::set` for the controller's record, `senders::set` for the sender's: the field that the phrase names, and no other.
// - `board::said`, `offer::said`: the board, and the sender's offer, that a phrase says.
//
// A phrase that names no field of a record leaves it as it is. What a field cannot hold of a number is cut off.
pub mod board;
pub mod choice;
pub mod offer;
pub mod records;
pub mod senders;
mod sessions;
