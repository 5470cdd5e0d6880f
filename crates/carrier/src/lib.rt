#![tactic(auto)]

// Frames carried between the two ends of the bench's link, as docs/EXCHANGE.md has it.
//
// - `carrier::Carrier`: the frames under way and what is left of the script, by value. `send` does with a frame what the script's next letter
//   says; `cleared` drops what is under way. Both tell what does not arrive.
//
// The link's memory and the output are lent by the caller, with the script's letters.
pub mod carrier;
