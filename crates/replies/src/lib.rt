#![tactic(auto)]

// The replies of the controller: no state.
//
// - `reply`: a reply's data, and its writing as a frame, as the controller does. Version byte and length are the table's.
// - `reply_fields`: whether some bytes are the reply to a command, and the fields in it, as the module's end reads them.
//
// Nothing above this crate knows where in a reply's data a field stands. What `reply` writes `reply_fields` reads back
// (specs/RoundTrips.antt).
pub mod reply;
pub mod reply_fields;
