#![tactic(auto)]

// Packets (FD): which is taken, where its bytes go, and which is the last one sent again.
//
// `fd::answer` takes a transfer by value with the packet's fields and bytes and hands back a `Step`; of the area it writes at most the part
// from place stored on. Any transfer, packet and area is taken; nothing is asked of the caller.
pub mod fd;
