// The end check that FE starts, portion by portion.
ghost use Rattle.std.specs.Prelude.{◌≡◌, true, false};
ghost use Rattle.ending.specs.FE.{ended_fe};
ghost use Rattle.ending.specs.Portions.{step_by, check_step};

use commands::state;
use image::check::{Check, Verdict};
use replies::reply;
use transfer::identity::Identity;
use transfer::phase::Phase;
use transfer::state::{Step, Transfer};

// What a portion makes of a transfer, and how many bytes it read.
#[derive(Clone, Copy)]
pub struct CheckStep {
    pub count: usize,
    pub verdict: Verdict,
    pub step: Step,
}

// Reads at most `most` bytes on. With the last one comes the verdict.
#[tactic(auto, unfolding(crate::specs::Portions::check_step))]
pub fn portion(t: Transfer, most: usize, area: &[u8]) -> CheckStep
    ensures { result ≡ check_step t most area.now }
{
    let p = t.check.portion(most, t.image.announced, t.image.crc, area);
    CheckStep {
        count: p.count,
        verdict: p.verdict,
        step: step_by(t, p.verdict, p.check),
    }
}

fn step_by(t: Transfer, verdict: Verdict, check: Check) -> Step
    ensures { result ≡ step_by verdict t check }
{
    match verdict {
        Verdict::Unfinished => Step::noted(t.with_check(check)),
        Verdict::Right => accepted(t),
        Verdict::Wrong => refused(t),
    }
}

// FE's changes and reply, where the CRC-32 is the announced one. Nothing is left of the check.
#[tactic(auto, unfolding(crate::specs::FE::ended_fe))]
fn accepted(t: Transfer) -> Step
    ensures { result ≡ ended_fe t true }
{
    let next = t.with_check(Check::none()).with_phase(Phase::Done);
    Step::replied(next, reply::state(t.leg.channel, state::GRANTED))
}

// The same, where it is another: nothing of the image is stored any more.
#[tactic(auto, unfolding(crate::specs::FE::ended_fe))]
fn refused(t: Transfer) -> Step
    ensures { result ≡ ended_fe t false }
{
    let next = t
        .with_check(Check::none())
        .replaced(Phase::Idle, Identity::none());
    Step::replied(next, reply::state(t.leg.channel, state::FE_REFUSED))
}
