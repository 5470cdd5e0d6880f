#![tactic(auto)]

// The lines about an exchange, as docs/EXCHANGE.md has them: one for each copy of a frame, each silence and each change of what is stored,
// and three at the end. Each is put behind those that wait for standard output.
//
// - `gone`, `at_controller`, `at_sender`: a copy of a frame does not arrive, arrives at the controller, at the sender.
// - `silence`, `stored`: silence was told; the stored length has changed.
// - `sender_end`, `controller_end`, `area_end`: the last three.
//
// An outcome comes as its number: a line tells any, and none is refused here.
ghost use Rattle.std.specs.Prelude.{◌≡◌, ◌≤◌, length};
ghost use Rattle.fronts.specs.Frame.{max_frame};
ghost use Rattle.text.specs.Hex.{hex_bytes};
ghost use Rattle.text.specs.Outputs.{TextAdded, TextsAdded};
ghost use Rattle.transcript.specs.Words.{arrow, as_in_image, decision_word, phase_word, sender_end, area_end};
ghost use Rattle.transcript.specs.Lines.{copy_texts, gone_texts, at_controller_texts, heard_texts, at_sender_texts, silence_texts};
ghost use Rattle.transcript.specs.Lines.{stored_of_texts, stored_texts, sender_end_texts, controller_end_texts, area_end_texts};

use frames::buffer;
use fronts::MAX_FRAME;
use link::frame::{Frame, Way};
use sender::decision::Decision;
use sequences::part::front;
use text::hex;
use text::output::Output;
use transfer::phase::Phase;

// A longest frame in hexadecimal.
const DIGITS: usize = 2 * MAX_FRAME;

// A copy of a frame that does not arrive: lost, dropped or left.
pub fn gone(output: &mut Output, frame: Frame, fate: &[u8])
    ensures { TextsAdded output.old (gone_texts frame fate.now) output.new }
{
    copy(output, frame);
    output.text(fate);
    output.text(b"\n");
}

// A copy that arrives at the controller.
pub fn at_controller(output: &mut Output, frame: Frame, outcome: u8)
    ensures { TextsAdded output.old (at_controller_texts frame outcome) output.new }
{
    copy(output, frame);
    output.text(b"controller ");
    output.decimal(outcome as u64);
    output.text(b"\n");
}

// One that arrives at the sender.
pub fn at_sender(output: &mut Output, frame: Frame, outcome: u8, decision: Decision)
    ensures { TextsAdded output.old (at_sender_texts frame outcome decision) output.new }
{
    copy(output, frame);
    heard(output, outcome, decision);
}

pub fn silence(output: &mut Output, outcome: u8, decision: Decision)
    ensures { TextsAdded output.old (silence_texts outcome decision) output.new }
{
    output.text(b"silence ");
    heard(output, outcome, decision);
}

// What the controller has stored of an image of m bytes.
pub fn stored(output: &mut Output, n: usize, m: usize, is_same: bool)
    ensures { TextsAdded output.old (stored_texts n m is_same) output.new }
{
    stored_of(output, n, m);
    output.text(as_in_image(is_same));
}

pub fn sender_end(output: &mut Output, is_done: bool)
    ensures { TextsAdded output.old (sender_end_texts is_done) output.new }
{
    output.text(sender_word(is_done));
}

pub fn controller_end(output: &mut Output, phase: Phase, n: usize, m: usize)
    ensures { TextsAdded output.old (controller_end_texts phase n m) output.new }
{
    output.text(b"controller ");
    output.text(phase_word(phase));
    output.text(b", ");
    stored_of(output, n, m);
    output.text(b"\n");
}

pub fn area_end(output: &mut Output, is_same: bool)
    ensures { TextsAdded output.old (area_end_texts is_same) output.new }
{
    output.text(area_word(is_same));
}

// Way, command and bytes of a copy, each with a space behind it.
fn copy(output: &mut Output, frame: Frame)
    ensures { TextsAdded output.old (copy_texts frame) output.new }
{
    let bytes = front(&frame.bytes, frame.length);
    let command = hex::byte(buffer::command(bytes));
    output.text(arrow(frame.way));
    output.text(&command);
    output.text(b" ");
    digits(output, bytes);
    output.text(b" ");
}

// The bytes of a frame, of which none has more, in hexadecimal.
fn digits(output: &mut Output, bytes: &[u8])
    requires { length bytes.now ≤ max_frame }
    ensures { TextAdded output.old (hex_bytes bytes.now) output.new }
{
    let mut digits = [0u8; DIGITS];
    let n = hex::bytes(bytes, &mut digits);
    output.text(front(&digits, n));
}

fn arrow(way: Way) -> &'static [u8]
    ensures { result.now ≡ arrow way }
{
    match way {
        Way::ToController => b"-> ",
        Way::ToSender => b"<- ",
    }
}

fn as_in_image(is_same: bool) -> &'static [u8]
    ensures { result.now ≡ as_in_image is_same }
{
    if is_same {
        b", as in the image\n"
    } else {
        b", NOT as in the image\n"
    }
}

fn sender_word(is_done: bool) -> &'static [u8]
    ensures { result.now ≡ sender_end is_done }
{
    if is_done {
        b"sender done\n"
    } else {
        b"sender given up\n"
    }
}

fn area_word(is_same: bool) -> &'static [u8]
    ensures { result.now ≡ area_end is_same }
{
    if is_same {
        b"area equals the image\n"
    } else {
        b"area differs from the image\n"
    }
}

// What the sender makes of a reply or a silence.
fn heard(output: &mut Output, outcome: u8, decision: Decision)
    ensures { TextsAdded output.old (heard_texts outcome decision) output.new }
{
    output.text(b"sender ");
    output.decimal(outcome as u64);
    output.text(decision_word(decision));
}

// The decision, the last word of its line.
fn decision_word(decision: Decision) -> &'static [u8]
    ensures { result.now ≡ decision_word decision }
{
    match decision {
        Decision::Nothing => b" none\n",
        Decision::GoOn => b" go on\n",
        Decision::SendAgain => b" send again\n",
        Decision::NewLeg => b" new leg\n",
        Decision::Done => b" done\n",
        Decision::GivenUp => b" given up\n",
    }
}

fn stored_of(output: &mut Output, n: usize, m: usize)
    ensures { TextsAdded output.old (stored_of_texts n m) output.new }
{
    output.text(b"stored ");
    output.decimal(n as u64);
    output.text(b" of ");
    output.decimal(m as u64);
}

fn phase_word(phase: Phase) -> &'static [u8]
    ensures { result.now ≡ phase_word phase }
{
    match phase {
        Phase::Idle => b"idle",
        Phase::Asked => b"asked",
        Phase::Told => b"told",
        Phase::Receiving => b"receiving",
        Phase::Done => b"done",
    }
}
