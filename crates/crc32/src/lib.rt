#![tactic(auto)]

// CRC-32 of a slice of bytes: a long message is folded to a few bytes with the same register (`fold`), these go by tables, sixteen at a
// time (the crate `slicing`).
//
// What a CRC is stands in specs/Crc.antt of the crate `crc`; each function here is equal to that definition. A long message may be
// taken in parts: start at `INIT`, `update` over each part in turn, then `finish`. `checksum` is the three in one.
mod fold;
mod tables;

ghost use Rattle.std.specs.Prelude.{◌≡◌};
ghost use Rattle.crc.specs.Crc.{update, finish, checksum, crc32};
ghost use Rattle.crc.specs.Tables.{Tabled};

use slicing::register::Direction;

// The register before the first byte.
pub const INIT: u32 = 0xFFFFFFFF;

// The CRC-32 of s.
pub fn checksum(s: &[u8]) -> u32
    ensures { result ≡ checksum crc32 s.now }
{
    finish(update(INIT, s))
}

// The register after the bytes of s, from the given one.
pub fn update(register: u32, s: &[u8]) -> u32
    ensures { result ≡ update crc32 register s.now }
{
    let t = tables::TABLES;
    over(&t, register, s)
}

// The same by these tables.
fn over(t: &[u32; 512], register: u32, s: &[u8]) -> u32
    requires { Tabled crc32 16 t.now }
    ensures { result ≡ update crc32 register s.now }
{
    if s.len() < fold::LEAST {
        return slicing::over(Direction::Reflected, t, register, s);
    }
    fold::long(t, register, s)
}

// The CRC-32 that a register stands for once every byte is in.
pub fn finish(register: u32) -> u32
    ensures { result ≡ finish crc32 register }
{
    0xFFFFFFFF ^ register
}
