// Texts on their way to standard output. They are collected in a buffer, so that many go out in one write.
ghost use Rattle.std.specs.Prelude.{◌≡◌, true, ◌≤◌};
ghost use Rattle.text.specs.Outputs.{buffer_size, nothing, Flushed, RoomMade, TextAdded};
ghost use Rattle.text.specs.Decimals.{decimal};

use sequences::part::front;
use sequences::place;

// Standard output's descriptor.
const STDOUT: i32 = 1;

// The length of the buffer.
pub const SIZE: usize = 65536;

// The first `waiting` bytes of the buffer are still to be written. Once a write has failed none is tried again.
#[derive(Clone, Copy)]
pub struct Output {
    pub buffer: [u8; SIZE],
    pub waiting: usize,
    pub failed: bool,
}

impl Output {
    pub fn empty() -> Output
        ensures { result ≡ nothing }
    {
        Output {
            buffer: [0; SIZE],
            waiting: 0,
            failed: false,
        }
    }

    // Adds a text. Those that wait are written first where it does not fit behind them; one that is longer than the buffer is written
    // at once.
    pub fn text(&mut self, text: &[u8])
        ensures { TextAdded self.old text.now self.new }
    {
        let n = text.len();
        if SIZE < n {
            self.flush();
            self.failed = write(self.failed, text);
            return;
        }
        self.make_room(n);
        place::write(&mut self.buffer, self.waiting, text);
        self.waiting += n;
    }

    // Adds a number in decimal.
    pub fn decimal(&mut self, n: u64)
        ensures { TextAdded self.old (decimal n) self.new }
    {
        let mut digits = [0u8; 20];
        let count = io::decimal(n, &mut digits);
        self.text(&digits[..count]);
    }

    // Writes all that wait.
    pub fn flush(&mut self)
        ensures { Flushed self.old self.new }
    {
        self.failed = write(self.failed, front(&self.buffer, self.waiting));
        self.waiting = 0;
    }

    // After this a text of n bytes fits behind those that wait.
    fn make_room(&mut self, n: usize)
        requires { n ≤ buffer_size }
        ensures { RoomMade self.old n self.new }
    {
        if SIZE - n < self.waiting {
            self.flush();
        }
    }
}

// Writes a text unless a write has failed before, and answers whether one has.
fn write(is_failed: bool, text: &[u8]) -> bool
    ensures { is_failed ≡ true → result ≡ true }
{
    is_failed || !io::write_all(STDOUT, text)
}
