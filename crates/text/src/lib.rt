#![tactic(auto)]

// What the programs read words and write lines with.
//
// - `complaint::say`: a text on standard error.
// - `output::Output`: texts on their way to standard output, collected in a buffer of its own.
// - `hex`: bytes in hexadecimal digits.
// - `number`: the number that decimal digits say.
pub mod complaint;
pub mod hex;
pub mod number;
pub mod output;
