// A field's value: the new one where the command is the field's, else the old one; and bytes of a phrase, as a field has them.
ghost use Rattle.std.specs.Prelude.{◌≡◌, ◌+◌, ◌≤◌};
ghost use Rattle.sequences.specs.Fields.{field_at, number32_at};
ghost use Rattle.fields.specs.Choices.{set_to};

use phrases::phrase::BYTES;
use sequences::number::number32;
use sequences::place;

pub fn choose<T: Copy>(command: usize, own: usize, new: T, old: T) -> T
    ensures { result ≡ set_to command own new old }
{
    if command == own { new } else { old }
}

// The number that the first four bytes say, high byte first.
pub(crate) fn word(bytes: &[u8; BYTES]) -> u32
    ensures { result ≡ number32_at 0 bytes.now }
{
    number32(bytes[0], bytes[1], bytes[2], bytes[3]) as u32
}

pub(crate) fn bytes_at<const N: usize>(at: usize, bytes: &[u8; BYTES]) -> [u8; N]
    requires { at + N ≤ 65536 }
    ensures { result ≡ field_at at N bytes.now }
{
    let mut out = [0u8; N];
    place::copy_out(bytes, at, &mut out);
    out
}
