#![tactic(auto)]

// The state of one transfer of an image to a board, by value.
//
// - `phase::Phase`: how far it has come. `identity::Identity`: which image it is of.
// - `state::Transfer`: both, with the leg's numbers, what is stored and the end check; the few ways in which it changes.
// - `state::Step`: what a command or a portion of the end check makes of it: whether there is an answer at all, the next transfer, and the
//   reply's data, where there is a reply.
//
// What FA to FE do to a transfer are the crates `agreement` (FA, FB, FC), `packets` (FD) and `ending` (FE and its check). None of these
// knows the board list, a frame's bytes or an outcome's number.
pub mod identity;
pub mod phase;
pub mod state;
