// A register of 16 or of 32 bits, and its two parts in a step by a table.
ghost use Rattle.std.specs.Prelude.{◌≡◌, ◌≤◌, ℕ};
ghost use Rattle.std.specs.Int.Bits.{bit_xor};
ghost use Rattle.std.proofs.Common.{rules};
ghost use Rattle.crc.specs.Tables.{front, rest};
ghost use Rattle.slicing.specs.Directions.{direction_of};

// Which way a register moves, and so which bits of it the next byte meets.
#[derive(Clone, Copy, Debug, PartialEq, Eq)]
pub enum Direction {
    Normal,
    Reflected,
}

pub trait Register: Copy {
    ghost width: { ℕ };

    // How many bytes meet it.
    ghost BYTES: { ℕ };

    const BYTES: usize;

    // What it is to the definitions.
    ghost number: { Self → ℕ };

    fn none() -> Self
        ensures { number result ≡ 0 };

    fn plus(self, other: Self) -> Self
        ensures { number result ≡ bit_xor (number self) (number other) };

    // The eight bits that the next byte is added to.
    fn front(self, d: Direction) -> u8
        ensures { result ≡ front (direction_of d) width (number self) };

    // The others, moved.
    fn rest(self, d: Direction) -> Self
        ensures { number result ≡ rest (direction_of d) width (number self) };

    ghost has_a_byte: { 8 ≤ width };

    ghost meets_a_byte: { 1 ≤ BYTES };
}

impl Register for u16 {
    ghost width = { 16 };

    ghost BYTES = { 2 };

    const BYTES: usize = 2;

    ghost number = { λ r. r };

    fn none() -> u16 {
        0
    }

    fn plus(self, other: u16) -> u16 {
        self ^ other
    }

    fn front(self, d: Direction) -> u8 {
        match d {
            Direction::Normal => (self / 256) as u8,
            Direction::Reflected => (self % 256) as u8,
        }
    }

    fn rest(self, d: Direction) -> u16 {
        match d {
            Direction::Normal => self % 256 * 256,
            Direction::Reflected => self / 256,
        }
    }

    ghost has_a_byte = { Prim.search rules };

    ghost meets_a_byte = { Prim.search rules };
}

impl Register for u32 {
    ghost width = { 32 };

    ghost BYTES = { 4 };

    const BYTES: usize = 4;

    ghost number = { λ r. r };

    fn none() -> u32 {
        0
    }

    fn plus(self, other: u32) -> u32 {
        self ^ other
    }

    fn front(self, d: Direction) -> u8 {
        match d {
            Direction::Normal => (self / 0x1000000) as u8,
            Direction::Reflected => (self % 0x100) as u8,
        }
    }

    fn rest(self, d: Direction) -> u32 {
        match d {
            Direction::Normal => self % 0x1000000 * 0x100,
            Direction::Reflected => self / 0x100,
        }
    }

    ghost has_a_byte = { Prim.search rules };

    ghost meets_a_byte = { Prim.search rules };
}
