// Writing a frame.
ghost use Rattle.std.specs.Prelude.{◌≡◌, ◌∷◌, [], ◌/◌, ◌%◌, ◌≤◌, length};
ghost use Rattle.std.proofs.lemmas.List.Edits.{sets};
ghost use Rattle.fronts.specs.Frame.{head1, head2, max_data, header_size};
ghost use Rattle.frames.specs.Buffer.{Written};

use fronts::sum::sum;
use fronts::{MAX_DATA, OVERHEAD, header};
use sequences::number::bytes16;
use sequences::place;

// Writes the frame of version, command and data to the front of room and gives its size; bytes past it stay. Where the data is too
// long for a frame, or the room too short for this one, it gives 0 and writes nothing.
pub fn write(version: u8, command: u8, data: &[u8], room: &mut [u8]) -> usize
    ensures { Written (record { version = version; command = command; payload = «data».now }) room.old result
        room.new }
{
    let n = data.len();
    if MAX_DATA < n {
        return 0;
    }
    let size = OVERHEAD + n;
    if room.len() < size {
        return 0;
    }
    write_header(version, command, n, &mut *room);
    let last = header::SIZE + n;
    place::copy(data, &mut room[header::SIZE..last]);
    room[last] = sum(&room[..last]);
    size
}

// Writes the header of a frame of n data bytes to the front of room.
fn write_header(version: u8, command: u8, n: usize, room: &mut [u8])
    requires { (n ≤ max_data) × (header_size ≤ length room.old) }
    ensures { room.new ≡ sets room.old 0 (head1 ∷ head2 ∷ version ∷ command ∷ n / 256 ∷ n % 256 ∷ []) }
{
    let [high, low] = bytes16(n);
    room[..header::SIZE].copy_from_slice(&[
        header::HEAD_1,
        header::HEAD_2,
        version,
        command,
        high,
        low,
    ]);
}
