// Where the next frame may begin: where both head bytes stand, or the first one as the last byte there is.
ghost use Rattle.std.specs.Prelude.{◌≡◌, false, ◌++◌, ◌+◌, ◌≤◌, ◌<◌, length};
ghost use Rattle.fronts.specs.Frame.{head1, head2};
ghost use Rattle.frames.specs.Scans.{Stray, Headless, block_size};

use fronts::header;
use sequences::bounds::smaller;

// How many places are searched one by one at first, and then together: heads close to one another are not worth a whole block.
const NEAR: usize = 16;

const BLOCK: usize = 64;

// The first such place of a followed by b, from `from` on, or the end. Each call searches one of the two, and may stop at the end of a.
pub(crate) fn next_head_of(a: &[u8], b: &[u8], from: usize) -> usize
    requires { from ≤ length a.now + length b.now }
    ensures { Headless (a.now ++ b.now) from (length a.now + length b.now) result }
{
    let n = a.len();
    if from < n {
        next_head(a, from, n)
    } else {
        n + next_head(b, from - n, b.len())
    }
}

// The first such place of s, from `from` on and below `to`, or `to`.
pub(crate) fn next_head(s: &[u8], from: usize, to: usize) -> usize
    requires { (from ≤ to) × (to ≤ length s.now) }
    ensures { Headless s.now from to result }
{
    let near = first_head(s, from, smaller(from + NEAR, to));
    if near + 1 < from + NEAR {
        near
    } else {
        first_head(s, past_blocks(s, near, to), to)
    }
}

// The same, one place after another.
fn first_head(s: &[u8], from: usize, to: usize) -> usize
    requires { (from ≤ to) × (to ≤ length s.now) }
    ensures { Headless s.now from to result }
{
    for i in from..to {
        if head_at(s, i, to) {
            return i;
        }
    }
    to
}

// Passes whole blocks without a head. The place where the loop stops is the answer, so it is no range of steps.
fn past_blocks(s: &[u8], from: usize, to: usize) -> usize
    requires { (from ≤ to) × (to ≤ length s.now) }
    ensures { Headless s.now from to result }
{
    let mut i = from;
    while i + BLOCK < to && heads(s, i) == 0 {
        i += BLOCK;
    }
    i
}

// How many heads stand in the block at `from`. All are counted: a loop that always runs to its end is compiled to take many bytes at once.
fn heads(s: &[u8], from: usize) -> u8
    requires { from + block_size < length s.now }
    ensures { result ≡ 0 → Headless s.now from (from + block_size + 1) (from + block_size) }
{
    let mut count: u8 = 0;
    for i in from..from + BLOCK {
        count += head(s[i], s[i + 1]);
    }
    count
}

// 1 for the two head bytes, else 0; without a branch, for the sake of the loop.
fn head(x: u8, y: u8) -> u8
    ensures { (result ≤ 1) × (result ≡ 0 → x ≡ head1 → y ≡ head2 → ⊥) }
{
    let other = (x ^ header::HEAD_1) | (y ^ header::HEAD_2);
    u8::from(other == 0)
}

// Whether a frame may begin at i, by its bytes below `to`.
fn head_at(s: &[u8], i: usize, to: usize) -> bool
    requires { (i < to) × (to ≤ length s.now) }
    ensures { result ≡ false → Stray s.now to i }
{
    s[i] == header::HEAD_1 && (to - i < 2 || s[i + 1] == header::HEAD_2)
}
