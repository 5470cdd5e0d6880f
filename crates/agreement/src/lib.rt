#![tactic(auto)]

// What both ends agree on before the packets: may an image be sent and in packets of which size (FA), which image it is (FB), and from
// where it is sent (FC).
//
// Each of `fa`, `fb`, `fc` has one public function, `answer`: it takes a transfer by value with the request's fields and hands back a
// `Step`.
// Any transfer, request, board and area is taken; nothing is asked of the caller.
pub mod fa;
pub mod fb;
pub mod fc;
mod identity;
mod version;
