#![tactic(auto)]

// A capture of the line replayed on the bench's board, turn by turn.
//
// - `run::Run`: what is kept from turn to turn, by value. `start` begins, `turn` makes one call on the controller's record or one read of
//   standard input, until `is_over`.
// - `stage::Stage`: where it stands, and so why it was over.
//
// Input buffer, output and area are lent by the caller.
pub mod run;
pub mod stage;
