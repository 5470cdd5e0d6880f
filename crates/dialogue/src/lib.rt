#![tactic(auto)]

// Both ends of the firmware service over the bench's link, as docs/EXCHANGE.md has it.
//
// - `run::Run`: what is kept from turn to turn, by value. `start` and `request` begin, `turn` goes on until `is_over`, `end` tells the
//   rest.
//
// The link's memory, the controller's area and the output are lent by the caller, with the image and the script's letters.
mod answer;
pub mod run;
mod stored;
