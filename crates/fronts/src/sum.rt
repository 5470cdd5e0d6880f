// The sum byte of a frame.
ghost use Rattle.std.specs.Prelude.{◌≡◌, ◌++◌};
ghost use Rattle.std.proofs.Math.Seq.{slice};
ghost use Rattle.fronts.specs.Frame.{sum_byte};

use sequences::joined;
use sequences::part::between;

// All bytes of s, added modulo 256.
pub fn sum(s: &[u8]) -> u8
    ensures { result ≡ sum_byte s.now }
{
    let mut total: u8 = 0;
    for byte in s {
        total = total.wrapping_add(*byte);
    }
    total
}

// Of a followed by b, those from `from` to `to`.
pub(crate) fn joined_sum(a: &[u8], b: &[u8], from: usize, to: usize) -> u8
    ensures { result ≡ sum_byte (slice from to (a.now ++ b.now)) }
{
    let first = sum(between(a, from, to));
    let second = sum(joined::second(b, a.len(), from, to));
    first.wrapping_add(second)
}
