// Bytes in hexadecimal, two upper-case digits to a byte.
ghost use Rattle.std.specs.Prelude.{◌≡◌, ◌<◌};
ghost use Rattle.text.specs.Hex.{hex_digit, hex_byte, hex_size, hex_room};

pub fn byte(b: u8) -> [u8; 2]
    ensures { result ≡ hex_byte b }
{
    [digit(b / 16), digit(b % 16)]
}

// Puts the digits of s to the front of the room and answers how many there are; none where the room is too short for all of them, and it
// stays as it is.
pub fn bytes(s: &[u8], room: &mut [u8]) -> usize
    ensures value { result ≡ hex_size s.now room.old }
    ensures room_after { room.new ≡ hex_room s.now room.old }
{
    if room.len() / 2 < s.len() {
        return 0;
    }
    for (i, b) in s.iter().enumerate() {
        let [high, low] = byte(*b);
        room[2 * i] = high;
        room[2 * i + 1] = low;
    }
    2 * s.len()
}

fn digit(d: u8) -> u8
    requires { d < 16 }
    ensures { result ≡ hex_digit d }
{
    if d < 10 { b'0' + d } else { b'A' - 10 + d }
}
