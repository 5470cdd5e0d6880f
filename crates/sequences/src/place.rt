// Places in lent memory.
ghost use Rattle.std.specs.Prelude.{◌≡◌, ◌++◌, min, length, take, drop};
ghost use Rattle.sequences.specs.Places.{written_at};

use crate::part::part;

// Writes the bytes from place `at` on and nothing else; nothing at all where they do not fit.
pub fn write(all: &mut [u8], at: usize, bytes: &[u8])
    ensures { all.new ≡ written_at all.old at bytes.now }
{
    if bytes.len() <= all.len() && at <= all.len() - bytes.len() {
        copy(bytes, &mut all[at..]);
    }
}

// Copies from the front of `from` to the front of `to`, as many bytes as both have, and returns how many.
pub fn copy(from: &[u8], to: &mut [u8]) -> usize
    ensures count { result ≡ min (length from.now) (length to.old) }
    ensures copied { to.new ≡ take result from.now ++ drop result to.old }
{
    let n = from.len().min(to.len());
    to[..n].copy_from_slice(&from[..n]);
    n
}

// Fills `out` from its front with the bytes from place `from` on, as far as there are any.
pub fn copy_out(all: &[u8], from: usize, out: &mut [u8])
    ensures { out.new ≡ written_at out.old 0 (take (length out.old) (drop from all.now)) }
{
    let n = out.len();
    write(out, 0, part(all, from, n));
}
