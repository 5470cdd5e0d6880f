#![tactic(auto)]

// What stands at the front of some bytes: the first maker's frame, told by its bytes. Version and command may be anything at this level.
//
//     55 AA, version, command, L (two bytes, high byte first), L data bytes (0 to 519), sum of all bytes before it modulo 256
//
// - `front::front_of` says what stands there: a whole frame, none whatever follows, or one that may still come. `front_at` says it of a
//   part of two slices read as one, and `missing` how many bytes an open front is short of its next test.
// - `header`: the bytes before the data.
// - `sum`: the sum byte.
pub mod front;
pub mod header;
pub mod sum;

// The most data bytes of a frame, and the bytes that a frame has besides.
pub const MAX_DATA: usize = 519;

pub const OVERHEAD: usize = 7;

// The bytes of the longest frame, which live reading can hold.
pub const MAX_FRAME: usize = OVERHEAD + MAX_DATA;
