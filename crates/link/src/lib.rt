#![tactic(auto)]

// A simulated link between the two ends, for the bench: docs/EXCHANGE.md has its rules.
//
// - `frame::Frame`: a frame by value, with the way that it goes.
// - `link::Link`: the frames under way, both ways together, in the order in which they were sent. Their bytes stand in memory that the
//   caller lends.
// - `script::Script`: what is left of the letters that say what happens to the frames.
pub mod frame;
pub mod link;
pub mod script;
