#![tactic(auto)]

// Makes every call of both ends by hand: reads one command a line on standard input, and answers each with one line: the outcome, the
// call's numbers, the reply, and what changed. So
//
//     board 0 1 0A 010002 010000 0000000000000000
//     open 1 65536
//     feed 55AA00FE00010A08
//
// gives
//
//     1 ok
//     2 open 0 | boards=1 board0=1,0A,010002,010000,0000000000000000 opened=65536
//     3 feed 0 taken=8 dropped=0 command=FE length=1 reply=55AA00FE00020A030C past=- area=- |
//
// docs/CONSOLE.md has every command and every field. A failed read or write is told on standard error. The exit status is 0 all the same.
ghost use Rattle.std.specs.Prelude.{◌≡◌};
ghost use Rattle.text.specs.Outputs.{nothing};

use desk::desk::{IMAGE, MEMORY};
use desk::run::Run;
use lines::lines::INPUT;
use phrases::phrase::BYTES;
use std::io::Stdin;
use text::complaint::say;
use text::output::Output;

fn main(rt: HostRuntime) {
    let mut input = io::large_buffer();
    let mut bytes = io::large_buffer();
    let mut room = io::large_buffer();
    let mut area = io::large_buffer();
    let mut image = [0u8; IMAGE];
    let mut kept = io::large_buffer();
    let mut kept_area = io::large_buffer();
    let mut output = Output::empty();
    let run = session(
        rt.stdin(),
        &mut input,
        &mut bytes,
        &mut room,
        &mut area,
        &mut image,
        &mut kept,
        &mut kept_area,
        &mut output,
    );
    finish(run, &mut output);
}

// Turns until the session is over, from where no line waits yet. A proved loop has to end, and nothing says that the input does: there are
// as many turns as no session uses up.
fn session(
    stdin: Stdin,
    input: &mut [u8; INPUT],
    bytes: &mut [u8; BYTES],
    room: &mut [u8; MEMORY],
    area: &mut [u8; MEMORY],
    image: &mut [u8; IMAGE],
    kept: &mut [u8; MEMORY],
    kept_area: &mut [u8; MEMORY],
    output: &mut Output,
) -> Run
    requires { output.old ≡ nothing }
{
    let mut run = Run::start();
    for _ in 0..u64::MAX {
        if run.is_over {
            return run;
        }
        run = run.turn(
            stdin, input, bytes, room, area, image, kept, kept_area, output,
        );
    }
    run
}

// What is left to write and to say once the session is over.
fn finish(run: Run, output: &mut Output) {
    output.flush();
    if output.failed {
        say(b"console: cannot write to standard output\n");
    }
    if run.lines.failed {
        say(b"console: cannot read standard input\n");
    }
}
