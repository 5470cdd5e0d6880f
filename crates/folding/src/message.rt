// The register over a long message: folded down to a few bytes, which the tables then take.
ghost use Rattle.std.specs.Prelude.{◌≡◌, ◌+◌, ◌≤◌, ◌<◌, true, length, take, replicate};
ghost use Rattle.std.proofs.lemmas.List.Edits.{sets};
ghost use Rattle.crc.specs.Crc.{Kind, update};
ghost use Rattle.crc.specs.Folding.{Within, Multiple, Carries, head_at, met, unmet};
ghost use Rattle.slicing.specs.Kinds.{Goes};

use slicing::register::{Direction, Register};
use slicing::tables::Tables;

// The offsets of a multiple of a kind's polynomial, the farthest of them again as `far`, and the kind's direction. Their number is a
// type's, so that the compiler writes their sum out.
#[derive(Clone, Copy)]
pub struct Fold<const N: usize> {
    pub direction: Direction,
    pub offsets: [usize; N],
    pub far: usize,
}

// The register after the bytes of s. Lent are a buffer of zeros for the bytes that count and a part behind them, and one for the last bytes.
// Nothing is asked of them: where they do not fit, or s has fewer bytes than meet the register, all of s goes by the tables.
pub fn over<T: Tables, const N: usize>(
    f: &Fold<N>,
    t: &T,
    register: T::Register,
    s: &[u8],
    b: &mut [u8],
    u: &mut [u8],
) -> T::Register
    ensures { (k : Kind) → Goes k T.Register.width f.now.direction → T.are_right k t.now
        → Within T.Register.BYTES f.now.far f.now.offsets → Multiple k f.now.far f.now.offsets
        → unmet k T.Register.BYTES (T.Register.number register) ≡ 0
        → b.old ≡ replicate (length b.old) 0
        → T.Register.number result ≡ update k (T.Register.number register) s.now }
{
    if fits(f.far, T::Register::BYTES, s.len(), b.len(), u.len()) {
        return folded(f, t, register, s, b, u);
    }
    slicing::over(f.direction, t, register, s)
}

// Whether so many bytes that meet a register are there, and memory of these lengths fits offsets up to `far`.
fn fits(far: usize, bytes: usize, n: usize, b: usize, u: usize) -> bool
    ensures { result ≡ true → ((bytes ≤ far) × (bytes ≤ n)) × ((far + far < b) × (u ≡ far)) }
{
    bytes <= far && bytes <= n && far < b && far < b - far && u == far
}

// `over`, where the memory fits.
fn folded<T: Tables, const N: usize>(
    f: &Fold<N>,
    t: &T,
    register: T::Register,
    s: &[u8],
    b: &mut [u8],
    u: &mut [u8],
) -> T::Register
    requires meets { (T.Register.BYTES ≤ f.now.far) × (T.Register.BYTES ≤ length s.now) }
    requires fits { (f.now.far + f.now.far < length b.old) × (length u.old ≡ f.now.far) }
    ensures { (k : Kind) → Goes k T.Register.width f.now.direction → T.are_right k t.now
        → Within T.Register.BYTES f.now.far f.now.offsets → Multiple k f.now.far f.now.offsets
        → unmet k T.Register.BYTES (T.Register.number register) ≡ 0
        → b.old ≡ replicate (length b.old) 0
        → T.Register.number result ≡ update k (T.Register.number register) s.now }
{
    put_head(f, register, s, &mut *b);
    all(f, &s[T::Register::BYTES..], &mut *b);
    crate::unsweep(&f.offsets, b, f.far, &mut *u);
    slicing::over(f.direction, t, T::Register::none(), u)
}

// Puts down the first bytes of s, as many as meet the register, where the first part is swept in behind them.
fn put_head<R: Register, const N: usize>(f: &Fold<N>, register: R, s: &[u8], b: &mut [u8])
    requires { ((R.BYTES ≤ f.now.far) × (R.BYTES ≤ length s.now)) × (f.now.far + f.now.far ≤ length b.old) }
    ensures { (k : Kind) → Goes k R.width f.now.direction
        → b.new ≡ sets b.old (head_at f.now.far R.BYTES) (met k (R.number register) (take R.BYTES s.now)) }
{
    let at = f.far + (f.far - R::BYTES);
    let mut left = register;
    for i in 0..R::BYTES {
        b[at + i] = left.front(f.direction) ^ s[i];
        left = left.rest(f.direction);
    }
}

// Carries the register that b stands for on over s, part after part.
fn all<const N: usize>(f: &Fold<N>, s: &[u8], b: &mut [u8])
    requires { f.now.far + f.now.far < length b.old }
    ensures { (k : Kind) → Within 1 f.now.far f.now.offsets → Multiple k f.now.far f.now.offsets
        → Carries k f.now.far f.now.offsets s.now b.old b.new }
{
    for piece in s.chunks(b.len() - f.far - f.far) {
        part(f, piece, &mut *b);
    }
}

// The same over one part: sweeps it in, and moves the bytes that now count to where those of before were.
fn part<const N: usize>(f: &Fold<N>, s: &[u8], b: &mut [u8])
    requires { f.now.far + f.now.far + length s.now ≤ length b.old }
    ensures { (k : Kind) → Within 1 f.now.far f.now.offsets → Multiple k f.now.far f.now.offsets
        → Carries k f.now.far f.now.offsets s.now b.old b.new }
{
    crate::sweep(&f.offsets, f.far + f.far, s, &mut *b);
    crate::move_down(b, f.far + s.len(), f.far, f.far);
}
