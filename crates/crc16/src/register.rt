// The register of any kind of 16 bits without a final xor, over all of a message.
ghost use Rattle.std.specs.Prelude.{◌≡◌, ◌≤◌, length};
ghost use Rattle.crc.specs.Crc.{checksum, update};
ghost use Rattle.crc.specs.Tables.{Tabled};
ghost use Rattle.crc16.specs.Foldable.{kind_for, Foldable};

use crate::parameters::Parameters;
use folding::message;

// Shorter messages are faster by the tables alone.
const LEAST: usize = 128;

// The most that a kind's `far` may be.
const MAX_FAR: usize = 80;

// So many bytes are swept before those that count are moved down: a packet's.
const PART: usize = 512;

const ROOM: usize = MAX_FAR + MAX_FAR + PART;

// The register over all of s, which is its CRC.
pub(crate) fn over(p: &Parameters, t: &[u16; 256], s: &[u8]) -> u16
    requires { Tabled (kind_for p.now) 8 t.now × Foldable p.now }
    ensures { result ≡ checksum (kind_for p.now) s.now }
{
    if s.len() < LEAST {
        return slicing::over(p.fold.direction, t, p.start, s);
    }
    long(p, t, p.start, s)
}

// The register after the bytes of s.
fn long(p: &Parameters, t: &[u16; 256], register: u16, s: &[u8]) -> u16
    requires { (2 ≤ length s.now) × (Tabled (kind_for p.now) 8 t.now × Foldable p.now) }
    ensures { result ≡ update (kind_for p.now) register s.now }
{
    let mut b = [0u8; ROOM];
    let mut u = [0u8; MAX_FAR];
    let far = p.fold.far;
    message::over(
        &p.fold,
        t,
        register,
        s,
        &mut b[..far + far + PART],
        &mut u[..far],
    )
}
