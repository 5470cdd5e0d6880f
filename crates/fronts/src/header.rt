// The six bytes before the data: 55 AA, version, command, L.
ghost use Rattle.std.specs.Prelude.{◌≡◌, ◌<◌, ◌++◌, drop};
ghost use Rattle.sequences.specs.Numbers.{max16};
ghost use Rattle.fronts.specs.Frame.{length_at};

use crate::MAX_DATA;
use sequences::bounds::past;
use sequences::joined::byte;
use sequences::number::number16;

pub const SIZE: usize = 6;

pub const HEAD_1: u8 = 0x55;

pub const HEAD_2: u8 = 0xAA;

// Where version, command and L stand.
pub const VERSION: usize = 2;

pub const COMMAND: usize = 3;

pub const LENGTH: usize = 4;

// The high byte of the largest L: after a higher one no L is small enough.
pub const MAX_HIGH: u8 = (MAX_DATA / 256) as u8;

// L, as the header that begins at `from` of a followed by b announces it; bytes past the end count as 0.
pub fn length_at(a: &[u8], b: &[u8], from: usize) -> usize
    ensures { (result ≡ length_at (drop from (a.now ++ b.now))) × (result < max16) }
{
    if past(a.len() + b.len(), from) <= LENGTH {
        0
    } else {
        number16(byte(a, b, from + 4), byte(a, b, from + 5))
    }
}
