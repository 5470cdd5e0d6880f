// Tables of 32 entries, one after the other. An impl for each size: over arrays of any register the entries' numbers would be a map over
// a list, and no contract plainer.
ghost use Rattle.std.specs.Prelude.{◌≡◌, ◌<◌, ℕ};
ghost use Rattle.std.proofs.Common.{rules};
ghost use Rattle.crc.specs.Crc.{Kind, byte_step};
ghost use Rattle.crc.specs.Tables.{zero_bytes, Tabled};

use crate::register::Register;

pub trait Tables {
    type Register: Register;

    // How many they are.
    ghost COUNT: { ℕ };

    const COUNT: usize;

    // That they are those of a kind.
    ghost are_right: { Kind → Self → Type 0 };

    // Table n, at x. A number that no table has gives another's entry.
    fn at(&self, n: usize, x: u8) -> Self::Register
        ensures { (k : Kind) → n < COUNT → are_right k self.now → Self.Register.number result ≡ zero_bytes k n (byte_step k 0 x) };

    ghost is_some: { 0 < COUNT };
}

impl Tables for [u16; 256] {
    type Register = u16;

    ghost COUNT = { 8 };

    const COUNT: usize = 8;

    ghost are_right = { λ k t. Tabled k 8 t };

    // The sum of the entries of its nibbles.
    fn at(&self, n: usize, x: u8) -> u16 {
        let from = n % 8 * 32;
        let i = from + (x % 16) as usize;
        let j = from + 16 + (x / 16) as usize;
        self[i] ^ self[j]
    }

    ghost is_some = { Prim.search rules };
}

impl Tables for [u32; 512] {
    type Register = u32;

    ghost COUNT = { 16 };

    const COUNT: usize = 16;

    ghost are_right = { λ k t. Tabled k 16 t };

    // The sum of the entries of its nibbles.
    fn at(&self, n: usize, x: u8) -> u32 {
        let from = n % 16 * 32;
        let i = from + (x % 16) as usize;
        let j = from + 16 + (x / 16) as usize;
        self[i] ^ self[j]
    }

    ghost is_some = { Prim.search rules };
}
