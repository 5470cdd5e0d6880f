// A frame at the first byte of a whole buffer. Bytes after the frame do not matter, but to `alone`.
ghost use Rattle.std.specs.Prelude.{◌≡◌, ◌+◌};
ghost use Rattle.frames.specs.Buffer.{whole_at, data_at, data_place, alone_at, version_at, command_at};

use fronts::front::{Front, front_of};
use fronts::{OVERHEAD, header};

// Whether a whole frame begins at the first byte of s.
pub fn whole(s: &[u8]) -> bool
    ensures { result ≡ whole_at s.now }
{
    front_of(s) == Front::Whole
}

// The data of the frame at the first byte of s, as that part of s. Without a frame the part is empty, and so it is for a frame
// without data: `whole` tells the two apart. The second promise says which part: the same memory, from that place on.
pub fn data(s: &[u8]) -> &[u8]
    ensures result_value { result.now ≡ data_at s.now }
    ensures ref_ptr_value { (result.ref_ptr.0 ≡ s.entry.ref_ptr.0) × (result.ref_ptr.1 ≡ data_place s.now + s.entry.ref_ptr.1) }
{
    if whole(s) {
        let end = header::SIZE + header::length_at(s, &s[..0], 0);
        &s[header::SIZE..end]
    } else {
        &s[..0]
    }
}

// Whether s is one whole frame and nothing else.
pub fn alone(s: &[u8]) -> bool
    ensures { result ≡ alone_at s.now }
{
    whole(s) && OVERHEAD + data(s).len() == s.len()
}

// The version byte of the frame at the first byte of s; 0 without one.
pub fn version(s: &[u8]) -> u8
    ensures { result ≡ version_at s.now }
{
    if whole(s) { s[header::VERSION] } else { 0 }
}

// Its command; 0 without one.
pub fn command(s: &[u8]) -> u8
    ensures { result ≡ command_at s.now }
{
    if whole(s) { s[header::COMMAND] } else { 0 }
}
