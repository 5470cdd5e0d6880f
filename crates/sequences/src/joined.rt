// Two slices read as one sequence, the second behind the first; no byte is moved to join them.
ghost use Rattle.std.specs.Prelude.{◌≡◌, ◌++◌, ◌-◌, get_or};
ghost use Rattle.std.proofs.Math.Seq.{slice};
ghost use Rattle.sequences.specs.Places.{written_at};

use crate::bounds::past;
use crate::part::between;
use crate::place;

// The byte at i; 0 past the end.
pub fn byte(a: &[u8], b: &[u8], i: usize) -> u8
    ensures { result ≡ get_or (a.now ++ b.now) i 0 }
{
    if i < a.len() {
        a[i]
    } else {
        b.get(i - a.len()).copied().unwrap_or(0)
    }
}

// What of the bytes from `from` to `to` stands in the second slice, where the first has n bytes.
pub fn second(b: &[u8], n: usize, from: usize, to: usize) -> &[u8]
    ensures { result.now ≡ slice (from - n) (to - n) b.now }
{
    between(b, past(from, n), past(to, n))
}

// Writes the bytes from `from` to `to` to the front of out; bytes past them stay. Nothing is written where they do not fit.
pub fn copy(a: &[u8], b: &[u8], from: usize, to: usize, out: &mut [u8])
    ensures { out.new ≡ written_at out.old 0 (slice from to (a.now ++ b.now)) }
{
    let x = between(a, from, to);
    let y = second(b, a.len(), from, to);
    let n = x.len();
    if n + y.len() <= out.len() {
        place::write(&mut *out, 0, x);
        place::write(out, n, y);
    }
}
