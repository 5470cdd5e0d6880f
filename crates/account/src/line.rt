// A line of the output.
ghost use Rattle.std.specs.Prelude.{◌≡◌, ◌+◌, ◌*◌, ◌<◌, ◌≤◌, [], ◌∷◌, length};
ghost use Rattle.controller.specs.Calls.{min_room};
ghost use Rattle.text.specs.Hex.{hex_byte};
ghost use Rattle.account.specs.Texts.{max_line, line_text, reply_text, FrameText, EndText, Adds, AddsDecimal};

use controller::call::MIN_ROOM;
use sequences::place;
use text::hex;

// As much as a line can take: two decimals, a command of two digits, the longest reply, three spaces and the line's end.
pub const MAX_LINE: usize = 2 * DECIMAL + 2 + 2 * MIN_ROOM + 4;

// The most digits of a decimal.
const DECIMAL: usize = 20;

// Its first `count` bytes.
#[derive(Clone, Copy)]
pub struct Line {
    pub bytes: [u8; MAX_LINE],
    pub count: usize,
}

impl Line {
    // The line of a frame.
    pub(crate) fn frame(place: u64, command: u8, outcome: u8, reply: &[u8]) -> Line
        requires { length reply.now ≤ min_room }
        ensures { FrameText place command outcome reply.now (line_text result) }
    {
        Line::empty()
            .decimal(place)
            .put(b' ')
            .hex(command)
            .put(b' ')
            .decimal(outcome as u64)
            .put(b' ')
            .reply(reply)
            .put(b'\n')
    }

    // The last line.
    pub(crate) fn end(dropped: u64) -> Line
        ensures { EndText dropped (line_text result) }
    {
        Line::empty()
            .text(b"end dropped ")
            .decimal(dropped)
            .put(b'\n')
    }

    fn empty() -> Line
        ensures { result.count ≡ 0 }
    {
        Line {
            bytes: [0; MAX_LINE],
            count: 0,
        }
    }

    // The reply in hexadecimal, or `-` for none.
    fn reply(mut self, reply: &[u8]) -> Line
        requires min_room_bound { self.count + 2 * min_room ≤ max_line }
        requires reply_len_bound { length reply.now ≤ min_room }
        ensures adds { Adds self (reply_text reply.now) result }
        ensures count_bound { result.count ≤ self.count + 2 * min_room }
    {
        if reply.is_empty() {
            return self.put(b'-');
        }
        let at = self.count;
        self.count = at + hex::bytes(reply, &mut self.bytes[at..]);
        self
    }

    fn decimal(self, n: u64) -> Line
        requires { self.count + 20 ≤ max_line }
        ensures { AddsDecimal self n result }
    {
        let mut digits = [0u8; DECIMAL];
        let count = io::decimal(n, &mut digits);
        self.text(&digits[..count])
    }

    fn hex(self, b: u8) -> Line
        requires { self.count + 2 ≤ max_line }
        ensures { Adds self (hex_byte b) result }
    {
        let digits = hex::byte(b);
        self.put(digits[0]).put(digits[1])
    }

    fn text(mut self, text: &[u8]) -> Line
        requires { self.count + length text.now ≤ max_line }
        ensures { Adds self text.now result }
    {
        let at = self.count;
        self.count = at + place::copy(text, &mut self.bytes[at..]);
        self
    }

    fn put(mut self, b: u8) -> Line
        requires { self.count + 1 ≤ max_line }
        ensures { Adds self (b ∷ []) result }
    {
        let at = self.count;
        self.bytes[at] = b;
        self.count = at + 1;
        self
    }
}
