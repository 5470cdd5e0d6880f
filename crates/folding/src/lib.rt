#![tactic(auto)]

// Messages folded over a multiple of a CRC's polynomial that has few terms: the functions that only touch bytes.
//
// What sweeping is stands in specs/Folding.antt of the crate `crc`, with the laws that carry a register through it; docs/CHECKSUMS.md has
// a worked example. Each kind of CRC has its offsets. No byte waits for one nearer than the least of them, so the compiler takes 16 or 32
// at a time.
//
// The public functions of this file ask nothing: each first tests, once for all its bytes, that they lie in the buffer and no offset leads
// out of it, and changes nothing where the test fails. `message` carries a register over a long message by them.
pub mod message;

ghost use Rattle.std.specs.Prelude.{◌≡◌, cond, ◌+◌, ◌≤◌, ◌<◌, leb, length, drop};
ghost use Rattle.std.proofs.Math.Seq.{paste};
ghost use Rattle.crc.specs.Folding.{Within, gathered, swept, unswept, sweepable, movable};

// Sweeps s into b, from place `at` on.
#[tactic(auto, using(crc::proofs::Bounds::sweepable_where))]
pub fn sweep(offsets: &[usize], at: usize, s: &[u8], b: &mut [u8])
    ensures { b.new ≡ cond (sweepable offsets.now at (length s.now) (length b.old))
        (swept offsets.now at s.now b.old) b.old }
{
    if sweepable(offsets, at, s.len(), b.len()) {
        sweep_within(offsets, at, s, b);
    }
}

// Fills u with the bytes that, swept in from place `at` on behind what b has before it, give what b has there.
#[tactic(auto, using(crc::proofs::Bounds::sweepable_where))]
pub fn unsweep(offsets: &[usize], b: &[u8], at: usize, u: &mut [u8])
    ensures { u.new ≡ cond (sweepable offsets.now at (length u.old) (length b.now))
        (unswept offsets.now at (length u.old) b.now) u.old }
{
    if sweepable(offsets, at, u.len(), b.len()) {
        unsweep_within(offsets, b, at, u);
    }
}

// Moves n bytes of b down, from place `from` on to place `to` on.
#[tactic(auto, using(crc::proofs::Bounds::movable_where))]
pub fn move_down(b: &mut [u8], from: usize, to: usize, n: usize)
    ensures { b.new ≡ cond (movable from to n (length b.old))
        (paste b.old to (drop from b.old) n) b.old }
{
    if movable(from, to, n, b.len()) {
        b.copy_within(from..from + n, to);
    }
}

// Whether n bytes may be swept from place `at` on in a buffer of that size.
fn sweepable(offsets: &[usize], at: usize, n: usize, size: usize) -> bool
    ensures { result ≡ sweepable offsets.now at n size }
{
    offsets.iter().all(|offset| *offset <= at) && ends_in(at, n, size)
}

// Whether n bytes may be moved down in it.
#[tactic(auto, unfolding(crc::specs::Folding::movable))]
fn movable(from: usize, to: usize, n: usize, size: usize) -> bool
    ensures { result ≡ movable from to n size }
{
    to <= from && ends_in(from, n, size)
}

// Whether n bytes from place `at` on lie in it.
fn ends_in(at: usize, n: usize, size: usize) -> bool
    ensures { result ≡ leb (at + n) size }
{
    at <= size && n <= size - at
}

// `sweep`, where its test passed.
#[tactic(auto, using(crate::proofs::Turns::swept_more), unfolding(crc::specs::Folding::swept))]
fn sweep_within(offsets: &[usize], at: usize, s: &[u8], b: &mut [u8])
    requires { Within 0 at offsets.now × (at + length s.now ≤ length b.old) }
    ensures { b.new ≡ swept offsets.now at s.now b.old }
{
    for (i, x) in s.iter().enumerate() {
        b[at + i] = *x ^ gather(offsets, &*b, at + i);
    }
}

// `unsweep`, where its test passed.
#[tactic(auto, unfolding(crc::specs::Folding::unswept))]
fn unsweep_within(offsets: &[usize], b: &[u8], at: usize, u: &mut [u8])
    requires { Within 0 at offsets.now × (at + length u.old ≤ length b.now) }
    ensures { u.new ≡ unswept offsets.now at (length u.old) b.now }
{
    for i in 0..u.len() {
        u[i] = b[at + i] ^ gather(offsets, b, at + i);
    }
}

// What the bytes before place `at` add to it.
fn gather(offsets: &[usize], b: &[u8], at: usize) -> u8
    requires { Within 0 at offsets.now × (at < length b.now) }
    ensures { result ≡ gathered offsets.now b.now at }
{
    let mut sum = 0;
    for offset in offsets {
        sum ^= b[at - *offset];
    }
    sum
}
