// A finished frame by value.
ghost use Rattle.std.specs.Prelude.{◌≡◌, ◌+◌, ◌≤◌, length};
ghost use Rattle.fronts.specs.Frame.{max_data};
ghost use Rattle.sequences.specs.Places.{written_at};
ghost use Rattle.frames.specs.Finished.{no_data, extended, FinishedWritten};

use crate::writer;
use fronts::MAX_DATA;
use sequences::place;

// The first `length` of `bytes` are its data; a frame that live reading finished has zeros after them.
#[derive(Clone, Copy)]
pub struct FinishedFrame {
    pub version: u8,
    pub command: u8,
    pub length: usize,
    pub bytes: [u8; MAX_DATA],
}

// Made from its parts, and written.
impl FinishedFrame {
    pub fn empty(version: u8, command: u8) -> FinishedFrame
        ensures { result ≡ no_data version command }
    {
        FinishedFrame {
            version,
            command,
            length: 0,
            bytes: [0u8; MAX_DATA],
        }
    }

    // With a part more behind its data; as it is where the part does not fit.
    pub fn with(self, part: &[u8]) -> FinishedFrame
        ensures { result ≡ extended self part.now }
    {
        let n = part.len();
        let at = self.length;
        if MAX_DATA < n {
            return self;
        }
        if MAX_DATA - n < at {
            return self;
        }
        let mut bytes = self.bytes;
        place::write(&mut bytes, at, part);
        FinishedFrame {
            length: at + n,
            bytes,
            ..self
        }
    }

    // Writes it to the front of room, as `writer::write` does; 0, and nothing written, where it claims more data than a frame can have.
    pub fn write(self, room: &mut [u8]) -> usize
        ensures { FinishedWritten self room.old result room.new }
    {
        if MAX_DATA < self.length {
            0
        } else {
            writer::write(self.version, self.command, &self.bytes[..self.length], room)
        }
    }
}
