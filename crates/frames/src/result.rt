// What a call of live reading hands back, made once at its end: of the held bytes a and the new bytes b, and of where it stopped.
ghost use Rattle.std.specs.Prelude.{◌≡◌, ◌++◌, ◌+◌, ◌≤◌, length};
ghost use Rattle.std.proofs.Math.Seq.{slice};
ghost use Rattle.fronts.specs.declared.front.Front.TheVariants.{Whole};
ghost use Rattle.fronts.specs.Frame.{max_frame, frame_at};
ghost use Rattle.fronts.specs.Fronts.{front_of};
ghost use Rattle.frames.specs.Finished.{finished};
ghost use Rattle.frames.specs.LiveReading.{no_frame, holding, handed_back, refused};
ghost use Rattle.frames.specs.Scans.{Stop, stopped_at};

use crate::finished::FinishedFrame;
use crate::reader::{Fed, Reader};
use crate::scan::Scan;
use fronts::{MAX_DATA, MAX_FRAME, OVERHEAD, header};
use sequences::joined;

// The bytes from `from` to `to` stay held; a frame at their front is used up. Returned early: as the value of an if, and with the frame
// that is none made by `FinishedFrame::empty`, the result was copied more often.
pub(crate) fn stopped(a: &[u8], b: &[u8], s: Scan) -> Fed
    requires { Stop a.now b.now s }
    ensures { result ≡ handed_back (stopped_at a.now b.now s) }
{
    let from = s.from;
    let to = s.to;
    let taken = to - a.len();
    if s.found {
        let frame = frame_at(a, b, from, to);
        let rest = from + (OVERHEAD + frame.length);
        let next = hold(a, b, rest, to);
        return Fed {
            next,
            taken,
            dropped: from,
            found: true,
            frame,
        };
    }
    let next = hold(a, b, from, to);
    let frame = no_frame();
    Fed {
        next,
        taken,
        dropped: from,
        found: false,
        frame,
    }
}

// A reader that cannot be fed goes back as it came.
pub(crate) fn refused(reader: Reader) -> Fed
    ensures { result ≡ refused reader }
{
    let frame = no_frame();
    Fed {
        next: reader,
        taken: 0,
        dropped: 0,
        found: false,
        frame,
    }
}

// The reader that holds the bytes from `from` to `to`, with zeros past them.
fn hold(a: &[u8], b: &[u8], from: usize, to: usize) -> Reader
    requires { (from ≤ to) × ((to ≤ length a.now + length b.now) × (to ≤ from + max_frame)) }
    ensures { result ≡ holding (slice from to (a.now ++ b.now)) }
{
    let mut held = [0u8; MAX_FRAME];
    joined::copy(a, b, from, to, &mut held);
    Reader {
        held,
        count: to - from,
    }
}

// The frame that begins at `from`.
fn frame_at(a: &[u8], b: &[u8], from: usize, to: usize) -> FinishedFrame
    requires { (from ≤ to) × ((to ≤ length a.now + length b.now) × (front_of (slice from to (a.now ++ b.now)) ≡ Whole)) }
    ensures { result ≡ finished (frame_at (slice from to (a.now ++ b.now))) }
{
    let length = header::length_at(a, b, from);
    let start = from + header::SIZE;
    let end = start + length;
    let mut bytes = [0u8; MAX_DATA];
    joined::copy(a, b, start, end, &mut bytes);
    FinishedFrame {
        version: joined::byte(a, b, from + header::VERSION),
        command: joined::byte(a, b, from + header::COMMAND),
        length,
        bytes,
    }
}

fn no_frame() -> FinishedFrame
    ensures { result ≡ finished no_frame }
{
    FinishedFrame {
        version: 0,
        command: 0,
        length: 0,
        bytes: [0u8; MAX_DATA],
    }
}
