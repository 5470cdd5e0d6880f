#![tactic(auto)]

// Frames: bytes on the line to frames and back.
//
// - `buffer::whole` and `buffer::data` read a frame in a whole buffer, without a copy.
// - `writer::write` writes one to the front of some room.
// - `reader::Reader` reads live: it is fed the bytes as they come and hands out one frame per call.
//
// What each of them means stands in specs/, in the words of document 01; nothing here looks at commands.
pub mod buffer;
pub mod finished;
mod live;
pub mod reader;
mod result;
mod scan;
mod search;
pub mod writer;
