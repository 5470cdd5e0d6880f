// What is told of a capture, call by call.
ghost use Rattle.std.specs.Prelude.{◌≡◌, take};
ghost use Rattle.account.specs.Texts.{line_text, FrameText};
ghost use Rattle.account.specs.Accounts.{sum, line_waits, nothing_told, FrameTold, CallTold, PortionTold, EndTold};

use crate::line::Line;
use commands::outcome::Outcome;
use commands::table;
use controller::call::{Called, MIN_ROOM};
use controller::portion::Portioned;
use fronts::OVERHEAD;
use image::check::Verdict;
use sequences::part::front;
use text::output::Output;

// An end request has one byte of data.
const FE_LENGTH: usize = 1;

// While an end check runs, `place` is that of its end request, whose line waits for the reply.
#[derive(Clone, Copy)]
pub struct Account {
    // the capture's place of the first byte that is neither dropped nor of a frame that has its line
    pub place: u64,
    pub dropped: u64,
}

impl Account {
    pub fn empty() -> Account
        ensures { result ≡ nothing_told }
    {
        Account {
            place: 0,
            dropped: 0,
        }
    }

    // A call's drops are passed, then its frame, if it ended at one, gets a line and is passed, unless it starts an end check. The reply
    // stands in the room.
    pub fn after(mut self, c: Called, room: &[u8; MIN_ROOM], output: &mut Output) -> Account
        ensures { CallTold self c room.now output.old result output.new }
    {
        self.place = plus(self.place, c.dropped);
        self.dropped = plus(self.dropped, c.dropped);
        if line_waits(c) {
            return self;
        }
        let line = line_at(
            self.place,
            c.command,
            u8::from(c.outcome),
            room,
            c.reply_length,
        );
        self.with_line(line, c.data_length, output)
    }

    // With the verdict of an end check its end request gets a line and is passed.
    pub fn after_portion(self, p: Portioned, room: &[u8; MIN_ROOM], output: &mut Output) -> Account
        ensures { PortionTold self p room.now output.old result output.new }
    {
        match p.verdict {
            Verdict::Unfinished => self,
            _ => {
                let line = line_at(
                    self.place,
                    table::FE,
                    u8::from(p.outcome),
                    room,
                    p.reply_length,
                );
                self.with_line(line, FE_LENGTH, output)
            }
        }
    }

    // The last line is added.
    pub fn end(self, output: &mut Output)
        ensures { EndTold self output.old output.new }
    {
        let line = Line::end(self.dropped);
        output.text(front(&line.bytes, line.count));
    }

    // The line of the frame that stands here; the frame, of 7 + L bytes, is passed.
    fn with_line(mut self, line: Line, length: usize, output: &mut Output) -> Account
        ensures { FrameTold self (line_text line) length output.old result output.new }
    {
        output.text(front(&line.bytes, line.count));
        self.place = plus(plus(self.place, OVERHEAD), length);
        self
    }
}

// Whether no line is due yet: the call ended at no frame, or at an end request whose check has started.
fn line_waits(c: Called) -> bool
    ensures { result ≡ line_waits c }
{
    match c.outcome {
        Outcome::NoFrameYet => true,
        _ => c.next.is_checking(),
    }
}

// The line of a frame, whose reply is the first `length` bytes of the room; the outcome comes as its number, as `FrameText` has it.
fn line_at(place: u64, command: u8, outcome: u8, room: &[u8; MIN_ROOM], length: usize) -> Line
    ensures { FrameText place command outcome (take length room.now) (line_text result) }
{
    Line::frame(place, command, outcome, front(room, length))
}

fn plus(a: u64, b: usize) -> u64
    ensures { result ≡ sum a b }
{
    a.wrapping_add(b as u64)
}
