#![tactic(auto)]

// The requests of the module: no state.
//
// - `request`: their fields, read from a frame's data, as the controller does.
// - `request_frame`: a request as a frame, as the module's end sends it. Its version byte is the table's.
//
// Nothing above this crate knows where in a request's data a field stands. What `request_frame` builds `request` reads back
// (specs/RoundTrips.antt).
pub mod request;
pub mod request_frame;
