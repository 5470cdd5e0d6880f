#![tactic(auto)]

// The session: what a finished frame is answered.
//
// - `session::Session`: the list, the opened length and the transfer, by value. `open` makes one; `unlawful` is outcome 9's sentence for
//   what a session holds; `answer` takes a finished frame and hands back the next session; `portion` goes on with a running end check.
//
// Nothing here knows bytes on the line: held bytes, feeding and quiet are the record's, one layer up.
pub mod answer;
pub mod check;
mod lawful;
pub mod session;
