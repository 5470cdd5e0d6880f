#![tactic(auto)]

// The six commands of the firmware service, and the numbers that both of its ends share.
//
// - `table`: ONE constant with the version byte and the data length of each command in both directions, and what it says of a header.
// - `outcome`: what a call can come to. `state`: the states in replies, by command. `limits`: sizes and numbers.
//
// Fields and their places are the crates `requests` and `replies`.
pub mod limits;
pub mod outcome;
pub mod state;
pub mod table;
