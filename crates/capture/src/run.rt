// The run over a capture, turn by turn.
ghost use Rattle.std.specs.Prelude.{◌≡◌, ◌≤◌, IfSome, length};
ghost use Rattle.controller.specs.Records.{is_checking};
ghost use Rattle.capture.specs.Runs.{run_over, start_run, Follows, Quieted, ReadsOn, FeedsOrReads, portion_turn, ChecksOn, Turned};

use crate::stage;
use crate::stage::Stage;
use account::account::Account;
use bench::{AREA, PORTION};
use controller::call::{Called, MIN_ROOM};
use controller::record::Record;
use sequences::part::{behind, front};
use std::io::{Read, Stdin};
use text::output::Output;

// The length of the input buffer: as `io::large_buffer` gives.
pub const INPUT: usize = 65536;

// One read of the input, and how much it brought; None where it failed.
fn read_into(mut stdin: Stdin, input: &mut [u8; INPUT]) -> Option<usize>
    ensures { IfSome result (λ n. n ≤ length input.new) }
{
    stdin.read(input).ok()
}

// Of the input buffer the bytes from `at` to `end` are still to be fed.
#[derive(Clone, Copy)]
pub struct Unfed {
    pub at: usize,
    pub end: usize,
}

// What is kept from turn to turn.
//
// No call of a run is refused: the record is lawful from its opening on, the room is the least that is asked for, and the area is of the
// opened length. So each call but the last one of quiet takes, drops or reads a byte, or uses up a held frame. An end check is finished
// before the run goes on.
#[derive(Clone, Copy)]
pub struct Run {
    pub record: Record,
    pub stage: Stage,
    pub unfed: Unfed,
    pub account: Account,
}

impl Run {
    pub fn start(record: Record) -> Run
        ensures { result ≡ start_run «record» }
    {
        Run {
            record,
            stage: Stage::Feeding,
            unfed: Unfed { at: 0, end: 0 },
            account: Account::empty(),
        }
    }

    // A failed write ends the run in any stage, and nothing else while an end check runs.
    pub fn is_over(self, output: &Output) -> bool
        ensures { result ≡ run_over self output.now }
    {
        output.failed || (!self.record.is_checking() && stage::no_more(self.stage))
    }

    // One call on the record, or one read of the input.
    pub fn turn(
        self,
        stdin: Stdin,
        input: &mut [u8; INPUT],
        output: &mut Output,
        area: &mut [u8; AREA],
    ) -> Run
        ensures { Turned (is_checking self.record) self.stage self input.old output.old area.old result input.new output.new area.new }
    {
        if self.record.is_checking() {
            return self.check(output, area);
        }
        match self.stage {
            Stage::Feeding => self.feed(stdin, input, output, area),
            Stage::Quiet => self.quiet(output, area),
            Stage::Ended | Stage::ReadFailed => self,
        }
    }

    // Feeds what is left in the input buffer, and fills it when nothing is.
    fn feed(
        self,
        stdin: Stdin,
        input: &mut [u8; INPUT],
        output: &mut Output,
        area: &mut [u8; AREA],
    ) -> Run
        ensures { FeedsOrReads self input.old output.old area.old result input.new output.new area.new }
    {
        let left = behind(front(input, self.unfed.end), self.unfed.at);
        if left.len() == 0 {
            return self.read(stdin, input, output);
        }
        let mut room = [0u8; MIN_ROOM];
        let c = self.record.feed(left, &mut room, area);
        self.after(c, Stage::Feeding, &room, output)
    }

    // The lines go out first: a read may wait long, and who reads them should not wait with it.
    fn read(mut self, stdin: Stdin, input: &mut [u8; INPUT], output: &mut Output) -> Run
        ensures { ReadsOn self input.old output.old result input.new output.new }
    {
        output.flush();
        if output.failed {
            self.stage = Stage::Feeding;
            self.unfed = Unfed { at: 0, end: 0 };
            return self;
        }
        let got = read_into(stdin, input);
        let end = got.unwrap_or(0);
        self.stage = stage::after_read(got.is_none(), end);
        self.unfed = Unfed { at: 0, end };
        self
    }

    fn quiet(self, output: &mut Output, area: &mut [u8; AREA]) -> Run
        ensures { Quieted self output.old area.old result output.new area.new }
    {
        let mut room = [0u8; MIN_ROOM];
        let c = self.record.quiet(&mut room, area);
        self.after(c, stage::after_quiet(c.next), &room, output)
    }

    // A portion of the end check.
    fn check(mut self, output: &mut Output, area: &[u8; AREA]) -> Run
        ensures { ChecksOn self (portion_turn self area.now) output.old result output.new }
    {
        let mut room = [0u8; MIN_ROOM];
        let p = self.record.portion(PORTION, &mut room, area);
        self.record = p.next;
        self.account = self.account.after_portion(p, &room, output);
        self
    }

    // What a call makes of the run.
    fn after(self, c: Called, stage: Stage, room: &[u8; MIN_ROOM], output: &mut Output) -> Run
        ensures { Follows self c room.now output.old stage result output.new }
    {
        let at = self.unfed.at.wrapping_add(c.taken);
        let account = self.account.after(c, room, output);
        Run {
            record: c.next,
            stage,
            unfed: Unfed { at, ..self.unfed },
            account,
        }
    }
}
