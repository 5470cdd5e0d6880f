#![tactic(auto)]

// The account of a capture, as the bench's replay gives it: where its frames stand, what was dropped, and a line for each frame.
//
// - `account::Account`: place and drops, by value. `after` and `after_portion` tell what a call on the controller's record did; `end` tells
//   all drops.
//
// The lines are put on the output that the caller lends.
pub mod account;
mod line;
