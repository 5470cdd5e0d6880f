// A session, line by line.
ghost use Rattle.std.specs.Prelude.{◌≡◌};
ghost use Rattle.desk.specs.Runs.{fresh_run, is_passed_over, ended, LineDone, PassedTooLong, InputRead, SessionTurned};
ghost use Rattle.lines.specs.Lines.{next_line};

use crate::desk::{Desk, IMAGE, MEMORY};
use crate::telling;
use lines::lines::{INPUT, Kind, Lines};
use phrases::phrase;
use phrases::phrase::BYTES;
use sequences::part::part;
use std::io::Stdin;
use text::output::Output;

#[derive(Clone, Copy)]
pub struct Run {
    pub lines: Lines,
    pub desk: Desk,
    pub is_over: bool,
}

impl Run {
    pub fn start() -> Run
        ensures { result ≡ fresh_run }
    {
        Run {
            lines: Lines::none(),
            desk: Desk::empty(),
            is_over: false,
        }
    }

    // One line, or one read of the input.
    pub fn turn(
        self,
        stdin: Stdin,
        input: &mut [u8; INPUT],
        bytes: &mut [u8; BYTES],
        room: &mut [u8; MEMORY],
        area: &mut [u8; MEMORY],
        image: &mut [u8; IMAGE],
        kept: &mut [u8; MEMORY],
        kept_area: &mut [u8; MEMORY],
        output: &mut Output,
    ) -> Run
        ensures { SessionTurned (next_line self.lines input.old).kind (next_line self.lines input.old) self
            input.old bytes.old room.old area.old image.old output.old result
            input.new bytes.new room.new area.new image.new output.new }
    {
        let next = self.lines.next(input);
        let after = next.lines;
        match next.kind {
            Kind::Line { from, length } => {
                let line = part(input, from, length);
                self.obey(
                    after, line, bytes, room, area, image, kept, kept_area, output,
                )
            }
            Kind::TooLong => self.pass(after, output),
            Kind::Unfinished => self.read(stdin, after, input, output),
            Kind::None => self.end(after),
        }
    }

    // The next line is passed over, or obeyed.
    fn obey(
        mut self,
        lines: Lines,
        line: &[u8],
        bytes: &mut [u8; BYTES],
        room: &mut [u8; MEMORY],
        area: &mut [u8; MEMORY],
        image: &mut [u8; IMAGE],
        kept: &mut [u8; MEMORY],
        kept_area: &mut [u8; MEMORY],
        output: &mut Output,
    ) -> Run
        ensures { LineDone (is_passed_over line.now) self «lines» line.now bytes.old room.old
            area.old image.old output.old result bytes.new room.new area.new
            image.new output.new }
    {
        self.lines = lines;
        if is_passed_over(line) {
            return self;
        }
        let phrase = phrase::read(line, bytes);
        self.desk = self.desk.obey(
            lines.number,
            phrase,
            bytes,
            room,
            area,
            image,
            kept,
            kept_area,
            output,
        );
        self
    }

    fn pass(mut self, lines: Lines, output: &mut Output) -> Run
        ensures { PassedTooLong self «lines» output.old result output.new }
    {
        telling::line(output, lines.number, b" bad a line has at most 65535 bytes");
        self.lines = lines;
        self
    }

    // The lines go out first: a read may wait long, and who reads them should not wait with it. A failed read ends the session; what of a
    // line has come by then is no line.
    fn read(
        mut self,
        stdin: Stdin,
        lines: Lines,
        input: &mut [u8; INPUT],
        output: &mut Output,
    ) -> Run
        ensures { InputRead self «lines» input.old output.old result input.new output.new }
    {
        output.flush();
        if output.failed {
            return self.end(lines);
        }
        self.lines = lines.read(stdin, input);
        self.is_over = self.lines.failed;
        self
    }

    fn end(mut self, lines: Lines) -> Run
        ensures { result ≡ ended self «lines» }
    {
        self.lines = lines;
        self.is_over = true;
        self
    }
}

// "A line of no bytes, and one that begins with `#`, is passed over".
fn is_passed_over(line: &[u8]) -> bool
    ensures { result ≡ is_passed_over line.now }
{
    line.len() == 0 || line[0] == b'#'
}
