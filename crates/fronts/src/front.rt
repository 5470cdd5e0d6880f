// What stands at the front of some bytes.
ghost use Rattle.std.specs.Prelude.{◌≡◌, ◌+◌, ◌<◌, ◌≤◌, ◌++◌, length, drop, slice_index};
ghost use Rattle.std.proofs.Math.Seq.{slice};
ghost use Rattle.fronts.specs.declared.front.Front.TheVariants.{Open};
ghost use Rattle.sequences.specs.Numbers.{max16};
ghost use Rattle.fronts.specs.Frame.{header_size, length_at};
ghost use Rattle.fronts.specs.Fronts.{front_of, Missing};

use crate::sum::joined_sum;
use crate::{MAX_DATA, OVERHEAD, header};
use sequences::bounds::{past, smaller};
use sequences::number::number16;

#[derive(Clone, Copy, PartialEq, Eq)]
pub enum Front {
    // A whole frame begins at the first byte; bytes may follow it.
    Whole,
    // No frame begins at the first byte, whatever follows.
    Dead,
    // Not yet a frame, but some bytes would make it one.
    Open,
}

pub fn front_of(s: &[u8]) -> Front
    ensures { result ≡ front_of s.now }
{
    front_within(s, &s[..0], 0, s.len())
}

// What stands at the front of the bytes from `from` to `to`, of a followed by b.
pub fn front_at(a: &[u8], b: &[u8], from: usize, to: usize) -> Front
    ensures { result ≡ front_of (slice from to (a.now ++ b.now)) }
{
    let end = smaller(to, a.len() + b.len());
    if end < from {
        Front::Open
    } else {
        front_within(a, b, from, end)
    }
}

// Each byte is judged as soon as it is there, so that a front is dead as early as it can be. The tests stand as in the definition of
// `front_of`, one guard each.
fn front_within(a: &[u8], b: &[u8], from: usize, to: usize) -> Front
    requires { (from ≤ to) × (to ≤ length a.now + length b.now) }
    ensures { result ≡ front_of (slice from to (a.now ++ b.now)) }
{
    let n = to - from;
    if n < 1 {
        return Front::Open;
    }
    if byte_at(a, b, from) != header::HEAD_1 {
        return Front::Dead;
    }
    if n < 2 {
        return Front::Open;
    }
    if byte_at(a, b, from + 1) != header::HEAD_2 {
        return Front::Dead;
    }
    if n < 5 {
        return Front::Open;
    }
    if header::MAX_HIGH < byte_at(a, b, from + 4) {
        return Front::Dead;
    }
    if n < header::SIZE {
        return Front::Open;
    }
    let len = length_there(a, b, from);
    if MAX_DATA < len {
        return Front::Dead;
    }
    if n < OVERHEAD + len {
        return Front::Open;
    }
    let last = from + (header::SIZE + len);
    if byte_at(a, b, last) != joined_sum(a, b, from, last) {
        return Front::Dead;
    }
    Front::Whole
}

// L, where all of the header is there.
fn length_there(a: &[u8], b: &[u8], from: usize) -> usize
    requires { from + header_size ≤ length a.now + length b.now }
    ensures { (result ≡ length_at (drop from (a.now ++ b.now))) × (result < max16) }
{
    number16(byte_at(a, b, from + 4), byte_at(a, b, from + 5))
}

// The byte at i, which is there: no test of a front looks past its bytes, so only which slice has it is asked.
fn byte_at(a: &[u8], b: &[u8], i: usize) -> u8
    requires { i < length a.now + length b.now }
    ensures { result ≡ slice_index (a.now ++ b.now) i }
{
    if i < a.len() { a[i] } else { b[i - a.len()] }
}

// How many bytes the next test of an open front is short of. No test comes before they are there: whoever feeds may take them at once.
pub fn missing(a: &[u8], b: &[u8], from: usize, to: usize) -> usize
    ensures { from ≤ to → to ≤ length a.now + length b.now
        → front_of (slice from to (a.now ++ b.now)) ≡ Open → Missing (a.now ++ b.now) from to result }
{
    // Guards: one match over n, and one subtraction after it, was slower.
    let n = past(to, from);
    if n < 1 {
        return 1 - n;
    }
    if n < 2 {
        return 2 - n;
    }
    if n < 5 {
        return 5 - n;
    }
    if n < header::SIZE {
        return header::SIZE - n;
    }
    past(OVERHEAD + header::length_at(a, b, from), n)
}
