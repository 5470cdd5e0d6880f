#![tactic(auto)]

// The console's desk: both ends' records, how much of the lent memories their calls get, and what each command does.
//
// - `desk::Desk`: what is kept from command to command, by value. `Desk::obey` does what a phrase says and tells it, on one line.
// - `run::Run`: a session: lines of standard input, answered on standard output.
//
// Room, area and image are lent by the caller, and so are the output and two memories for what room and area held before a call; what
// those two hold in between is no matter. docs/CONSOLE.md decides what a line means and what is told.
mod calls;
pub mod desk;
mod lent;
mod memory;
pub mod run;
mod sender_calls;
mod settings;
mod telling;
