#![tactic(auto)]

// The register of any kind over some bytes, a block at a time by small tables: each byte of a block has its table, and no lookup waits for
// another's result.
//
// What tables hold stands in specs/Tables.antt of the crate `crc`. The caller lends them, and says in which direction their kind goes.
// Nothing is asked of them: a function is safe by any tables, and says what it answers by right ones.
pub mod register;
pub mod tables;

ghost use Rattle.std.specs.Prelude.{◌≡◌, ◌≤◌, length};
ghost use Rattle.crc.specs.Crc.{Kind, update};
ghost use Rattle.slicing.specs.Kinds.{Goes};

use crate::register::{Direction, Register};
use crate::tables::Tables;

// The register after the bytes of s.
pub fn over<T: Tables>(d: Direction, t: &T, register: T::Register, s: &[u8]) -> T::Register
    ensures { (k : Kind) → Goes k T.Register.width d → T.are_right k t.now
        → T.Register.number result ≡ update k (T.Register.number register) s.now }
{
    let (blocks, rest) = s.split_at(s.len() - s.len() % T::COUNT);
    let mut c = register;
    for b in blocks.chunks_exact(T::COUNT) {
        c = block(d, t, c, b);
    }
    block(d, t, c, rest)
}

// The register after the bytes of b, by a table for each. Those that the register meets use it up; what is left of it after fewer bytes
// is added at the end.
fn block<T: Tables>(d: Direction, t: &T, register: T::Register, b: &[u8]) -> T::Register
    requires { length b.now ≤ T.COUNT }
    ensures { (k : Kind) → Goes k T.Register.width d → T.are_right k t.now
        → T.Register.number result ≡ update k (T.Register.number register) b.now }
{
    let mut left = register;
    let mut sum = T::Register::none();
    for (i, x) in b.iter().enumerate() {
        sum = sum.plus(t.at(b.len() - 1 - i, left.front(d) ^ *x));
        left = left.rest(d);
    }
    sum.plus(left)
}
