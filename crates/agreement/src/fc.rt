// FC: from where the image is sent.
ghost use Rattle.std.specs.Prelude.{◌≡◌, ◌||◌, not};
ghost use Rattle.transfer.specs.Phases.{told_or_receiving};
ghost use Rattle.transfer.specs.Transfers.{other_channel};
ghost use Rattle.agreement.specs.FC.{start_of, started_at, answer_fc};

use image::progress::Progress;
use replies::reply;
use requests::request::RequestFC;
use transfer::phase::{Phase, is_told_or_receiving};
use transfer::state::{Leg, Step, Transfer};

#[tactic(auto, unfolding(crate::specs::FC::answer_fc))]
pub fn answer(t: Transfer, r: RequestFC) -> Step
    ensures { result ≡ answer_fc t r }
{
    if not_started(t, r.channel) {
        return Step::unanswered(t);
    }
    let start = start_of(t, r);
    Step::replied(started_at(t, start), reply::fc(r.channel, start))
}

// The leg begins there: no packet of it is the last one.
fn started_at(t: Transfer, start: usize) -> Transfer
    ensures { result ≡ started_at t start }
{
    Transfer {
        leg: Leg {
            phase: Phase::Receiving,
            next: 0,
            ..t.leg
        },
        progress: Progress::from(start),
        ..t
    }
}

fn not_started(t: Transfer, channel: u8) -> bool
    ensures { result ≡ (not (told_or_receiving t.leg.phase) || other_channel t channel) }
{
    !is_told_or_receiving(t.leg.phase) || t.other_channel(channel)
}

// An offset other than what is stored, smaller or larger, starts anew.
fn start_of(t: Transfer, r: RequestFC) -> usize
    ensures { result ≡ start_of t r }
{
    if r.offset == t.progress.stored {
        t.progress.stored
    } else {
        0
    }
}
