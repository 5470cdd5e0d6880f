#![tactic(auto)]

// The end of a transfer: the end request (FE) and the check that it starts.
//
// - `fe::answer` takes a transfer by value and the request's channel, and hands back a `Step`.
// - `check::portion` goes on with the check; with the last byte comes the verdict, and with it FE's reply.
//
// Any transfer and area is taken; nothing is asked of the caller.
pub mod check;
pub mod fe;
