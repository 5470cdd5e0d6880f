// The register over a long message: folded down to FAR bytes, which the tables then take.
ghost use Rattle.std.specs.Prelude.{◌≡◌, ◌≤◌, length};
ghost use Rattle.crc.specs.Crc.{update, crc32};
ghost use Rattle.crc.specs.Tables.{Tabled};

use folding::message::{self, Fold};
use slicing::register::Direction;

// Shorter messages are faster by the tables alone.
pub(crate) const LEAST: usize = 512;

// The offsets of x^300 + x^155 + x^117 + x^89 + 1, a multiple of the polynomial.
const OFFSETS: [usize; 4] = [145, 183, 211, 300];

const FAR: usize = 300;

// So many bytes are swept before the last FAR are moved down: more would be little faster and need more stack.
const PART: usize = 2048;

const ROOM: usize = FAR + FAR + PART;

// The register after the bytes of s.
pub(crate) fn long(t: &[u32; 512], register: u32, s: &[u8]) -> u32
    requires { (4 ≤ length s.now) × Tabled crc32 16 t.now }
    ensures { result ≡ update crc32 register s.now }
{
    let f = Fold {
        direction: Direction::Reflected,
        offsets: OFFSETS,
        far: FAR,
    };
    let mut b = [0u8; ROOM];
    let mut u = [0u8; FAR];
    message::over(&f, t, register, s, &mut b, &mut u)
}
