#![tactic(auto)]

// Replays a capture of the line: reads it on standard input, and writes what the bench's controller makes of it.
//
// A line for each frame: the place of its first byte in the capture, its command, the outcome, and the reply or `-`. A last line with
// all drops. So the capture 55 AA 00 FE 00 01 55 AA 00 FE 00 01 0A 08 gives
//
//     6 FE 0 55AA00FE00020A030C
//     end dropped 6
//
// A failed read or write is told on standard error and ends the program without the last line. Its exit status is 0 all the same.
ghost use Rattle.std.specs.Prelude.{◌≡◌};
ghost use Rattle.controller.specs.Bench.{fresh};
ghost use Rattle.capture.specs.Runs.{start_run, Replayed};
ghost use Rattle.capture.specs.Stages.{read_failed};
ghost use Rattle.text.specs.Outputs.{nothing};

use bench::AREA;
use capture::run::{INPUT, Run};
use capture::stage::Stage;
use std::io::Stdin;
use text::complaint::say;
use text::output::Output;

fn main(rt: HostRuntime) {
    let mut area = io::large_buffer();
    let mut input = io::large_buffer();
    let mut output = Output::empty();
    let run = replay(rt.stdin(), &mut input, &mut output, &mut area);
    report(run, &mut output);
}

// Turns until the run is over, from where no line waits yet. A proved loop has to end, and nothing says that the input does: the turns are
// counted up to a number that no run comes to.
fn replay(stdin: Stdin, input: &mut [u8; INPUT], output: &mut Output, area: &mut [u8; AREA]) -> Run
    requires { output.old ≡ nothing }
    ensures { Replayed
        (record { run = start_run fresh; input = input.old; output = nothing; area = area.old })
        (record { run = result; input = input.new; output = output.new; area = area.new }) }
{
    let mut run = Run::start(bench::open());
    for _ in 0..u64::MAX {
        if run.is_over(output) {
            return run;
        }
        run = run.turn(stdin, input, output, area);
    }
    run
}

// What is left to say once the run is over. After a failed write this writes nothing more.
fn report(run: Run, output: &mut Output) {
    if read_failed(run.stage) {
        say(b"replay: cannot read standard input\n");
        return;
    }
    run.account.end(output);
    output.flush();
    if output.failed {
        say(b"replay: cannot write to standard output\n");
    }
}

fn read_failed(stage: Stage) -> bool
    ensures { result ≡ read_failed stage }
{
    matches!(stage, Stage::ReadFailed)
}
