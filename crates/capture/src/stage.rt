// Where a run stands.
ghost use Rattle.std.specs.Prelude.{◌≡◌};
ghost use Rattle.capture.specs.Stages.{no_more, stage_quiet, stage_read, AfterRead};

use controller::record::Record;

// It feeds what it reads; after the last byte it tells quiet until nothing is held.
#[derive(Clone, Copy, PartialEq, Eq)]
pub enum Stage {
    Feeding,
    Quiet,
    Ended,
    ReadFailed,
}

// Whether nothing is to be done in this stage any more.
pub(crate) fn no_more(stage: Stage) -> bool
    ensures { result ≡ no_more stage }
{
    matches!(stage, Stage::Ended | Stage::ReadFailed)
}

// After a read that put `end` bytes into the input buffer: those are fed. Where there are none, it failed or the input is at its end.
pub(crate) fn after_read(is_failed: bool, end: usize) -> Stage
    ensures value { result ≡ stage_read is_failed end }
    ensures after_read { AfterRead end result }
{
    if 0 < end {
        return Stage::Feeding;
    }
    if is_failed {
        return Stage::ReadFailed;
    }
    Stage::Quiet
}

// After quiet was told.
pub(crate) fn after_quiet(record: Record) -> Stage
    ensures { result ≡ stage_quiet «record» }
{
    if record.reader.count == 0 {
        return Stage::Ended;
    }
    Stage::Quiet
}
