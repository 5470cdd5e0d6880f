#![tactic(auto)]

// Runs both ends of the firmware service in one process over a simulated link, and writes every frame.
//
//     exchange [image=FILE] [channel=N] [size=N] [link=SCRIPT]
//
// The words come in any order, each name at most once:
//
// - image: the file to send, 1 to 65,536 bytes; without it 40 bytes of text
// - channel: the board's, 10 to 19; without it 10
// - size: the sender's packet size, 16 to 65,535; without it 16
// - link: what the link does to the frames, a letter for each: p passes it, l loses it, r repeats it. The letter s is for no frame: it
//   tells the sender silence although something may be under way. After the last letter every frame passes
//
// There is a line for each copy of a frame when it arrives, is lost, is dropped or is left over, and one for each silence. So
// `exchange link=l` begins
//
//     -> FA 55AA00FA00030A001016 lost
//     silence sender 0 send again
//     -> FA 55AA00FA00030A001016 controller 0
//     <- FA 55AA00FA00070A0001000202000F sender 0 go on
//
// and ends
//
//     sender done
//     controller done, stored 40 of 40
//     area equals the image
//
// A word that is not taken, an image that cannot be read and a failed write are told on standard error. The exit status is 0 all the
// same.
mod arguments;
mod image_file;
mod letters;

ghost use Rattle.std.specs.Prelude.{◌≡◌, ◌≤◌, ◌<◌, List, ℕ, length};
ghost use Rattle.commands.specs.Limits.{max_area};
ghost use Rattle.bench.specs.Boards.{fresh_on};
ghost use Rattle.ends.specs.Ends.{open_sender};
ghost use Rattle.dialogue.specs.Dialogues.{dialogue_of, TurnMade};
ghost use Rattle.dialogue.specs.Turns.{request_turn};
ghost use Rattle.text.specs.Outputs.{nothing};
ghost use Rattle.words.specs.Ranges.{InRange};
ghost use Rattle.words.specs.Sayings.{board_channel, packet_size};

use bench::AREA;
use dialogue::run::Run;
use image_file::MAX_IMAGE;
use link::link::MEMORY;
use link::script::Script;
use sequences::part::front;
use text::complaint::say;
use text::output::Output;
use words::words::Words;

fn main(rt: HostRuntime) {
    let mut word = arguments::room();
    let words = arguments::read(&rt, &mut word);
    if words.is_bad {
        return;
    }
    let mut bytes = io::large_buffer();
    let Some(length) = image_file::load(&rt, words.image, &mut word, &mut bytes) else {
        return;
    };
    let script = letters::script(&rt, words.link, &mut word);
    exchange(words, script, &bytes, length, &word);
}

// The image is the first n bytes of the buffer.
fn exchange(words: Words, script: Script, bytes: &[u8; MAX_IMAGE], n: usize, letters: &[u8])
    requires in_range { InRange words }
    requires n_nonzero { 0 < n }
{
    let image = front(bytes, n);
    let mut memory = io::large_buffer();
    let mut area = io::large_buffer();
    let mut output = Output::empty();
    let started = start(words, script, image);
    let begun = first_request(started, image, letters, &mut memory, &mut output);
    let run = turns(begun, image, letters, &mut memory, &mut area, &mut output);
    run.end(image, &memory, &area, &mut output);
    if output.failed {
        say(b"exchange: cannot write to standard output\n");
    }
}

// Neither end refuses to open.
fn start(words: Words, script: Script, image: &[u8]) -> Run
    requires in_range { InRange words }
    requires image_nonzero { 0 < length image.now }
    requires image_len_bound { length image.now ≤ max_area }
    ensures { (result.record ≡ fresh_on (board_channel words)) ×
        (result.sender ≡ open_sender (board_channel words) (packet_size words) (length image.now)) }
{
    Run::start(words.board_channel(), words.packet_size(), script, image)
}

// The run begins where no line waits yet.
fn first_request(
    started: Run,
    image: &[u8],
    letters: &[u8],
    memory: &mut [u8; MEMORY],
    output: &mut Output,
) -> Run
    requires { output.old ≡ nothing }
    ensures { (area : List ℕ)
        → TurnMade (request_turn (dialogue_of started memory.old area) image.now letters.now)
        nothing result memory.new area output.new }
{
    started.request(image, letters, memory, output)
}

// Turns until the run is over. A proved loop has to end, and that every exchange ends is not proved here: the turns are counted up to a
// number that no run comes to.
fn turns(
    begun: Run,
    image: &[u8],
    letters: &[u8],
    memory: &mut [u8; MEMORY],
    area: &mut [u8; AREA],
    output: &mut Output,
) -> Run {
    let mut run = begun;
    for _ in 0..u64::MAX {
        if run.is_over(output) {
            return run;
        }
        run = run.turn(image, letters, memory, area, output);
    }
    run
}
