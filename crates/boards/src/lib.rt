#![tactic(auto)]

// The boards that images can be sent to.
//
// - `board::Board`: one of them.
// - `list`: the rules of the list, and which board a channel is.
// - `report`: the outward F9, which tells the module the list.
pub mod board;
pub mod list;
pub mod report;
