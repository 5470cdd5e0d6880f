#![tactic(auto)]

// Values as the program `console` tells them (docs/CONSOLE.md, "Output"), and one field of a record with its value. What is told is put
// behind the texts that wait for standard output.
//
// - `hexes`: bytes in hexadecimal, of any number; BYTES.
// - `span`: SPAN, the changed bytes of a memory from the first to the last.
// - `word`: the words for verdicts and decisions, and the phases' names.
// - `field`: a field's name and value, told where the value is another than before; a function for each kind of value.
//
// Which fields there are, and in which order they are told, is for those who call `field`.
pub mod field;
pub mod hexes;
pub mod span;
pub mod word;
