#![tactic(auto)]

// The words that the program `exchange` is started with.
//
// - `words::Words`: what the words so far say, and whether one of them is not taken.
// - `complaint`: lines on standard error.
pub mod complaint;
pub mod words;
