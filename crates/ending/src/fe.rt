// FE: is everything stored? Then the end check starts.
ghost use Rattle.std.specs.Prelude.{◌≡◌, ◌||◌, not};
ghost use Rattle.transfer.specs.Phases.{receiving_or_done};
ghost use Rattle.transfer.specs.Transfers.{other_channel};
ghost use Rattle.ending.specs.FE.{answer_fe};

use commands::state;
use image::check::Check;
use replies::reply;
use transfer::phase::is_receiving_or_done;
use transfer::state::{Step, Transfer};

#[tactic(auto, unfolding(crate::specs::FE::answer_fe))]
pub fn answer(t: Transfer, channel: u8) -> Step
    ensures { result ≡ answer_fe t channel }
{
    if not_ending(t, channel) {
        return Step::replied(t, reply::state(channel, state::FE_REFUSED));
    }
    if t.progress.stored != t.image.announced {
        return Step::replied(t, reply::state(channel, state::FE_INCOMPLETE));
    }
    Step::noted(t.with_check(Check::started()))
}

fn not_ending(t: Transfer, channel: u8) -> bool
    ensures { result ≡ (not (receiving_or_done t.leg.phase) || other_channel t channel) }
{
    !is_receiving_or_done(t.leg.phase) || t.other_channel(channel)
}
