// The words for verdicts, decisions and phases.
ghost use Rattle.std.specs.Prelude.{◌≡◌};
ghost use Rattle.values.specs.Words.{verdict_word, decision_told, phase_name, sender_phase_name};

use image::check::Verdict;
use sender::decision::Decision;
use sender::phase;
use transfer::phase::Phase;

pub fn verdict(verdict: Verdict) -> &'static [u8]
    ensures { result.now ≡ verdict_word verdict }
{
    match verdict {
        Verdict::Unfinished => b"unfinished",
        Verdict::Right => b"right",
        Verdict::Wrong => b"wrong",
    }
}

pub fn decision(decision: Decision) -> &'static [u8]
    ensures { result.now ≡ decision_told decision }
{
    match decision {
        Decision::Nothing => b"none",
        Decision::GoOn => b"go-on",
        Decision::SendAgain => b"send-again",
        Decision::NewLeg => b"new-leg",
        Decision::Done => b"done",
        Decision::GivenUp => b"given-up",
    }
}

// A phase of the controller.
pub fn phase(phase: Phase) -> &'static [u8]
    ensures { result.now ≡ phase_name phase }
{
    match phase {
        Phase::Idle => b"idle",
        Phase::Asked => b"asked",
        Phase::Told => b"told",
        Phase::Receiving => b"receiving",
        Phase::Done => b"done",
    }
}

pub fn sender_phase(phase: phase::Phase) -> &'static [u8]
    ensures { result.now ≡ sender_phase_name phase }
{
    match phase {
        phase::Phase::Asking => b"asking",
        phase::Phase::Telling => b"telling",
        phase::Phase::Placing => b"placing",
        phase::Phase::Sending => b"sending",
        phase::Phase::Ending => b"ending",
        phase::Phase::Done => b"done",
        phase::Phase::GivenUp => b"given-up",
    }
}
