#![tactic(auto)]

// A line of the program `console` read as a command: docs/CONSOLE.md, "Lines", "Commands" and "Bad lines". How long a line may be,
// comments and empty lines, and where the bytes go, are the caller's.
//
// - `table`: the place of each command, and its row: name, numbers, bytes.
// - `phrase::read`: which command a line is, its numbers and its bytes; or what is the trouble with it.
// - `trouble::tell`: the message that says so.
//
// Below them: `rows` has what stands in the table, `name` finds the row, `number` and `pairs` read what stands behind the name, `spaces`
// passes over what stands between. Nothing here asks anything of its caller.
mod name;
mod number;
mod pairs;
pub mod phrase;
mod rows;
mod spaces;
pub mod table;
pub mod trouble;
