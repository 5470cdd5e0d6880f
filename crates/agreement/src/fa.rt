// FA: may an image be sent?
ghost use Rattle.std.specs.Prelude.{◌≡◌};
ghost use Rattle.agreement.specs.FA.{refused_fa, asked, answer_fa};

use boards::board::Board;
use commands::limits::{MAX_PACKET, MIN_PACKET};
use commands::state;
use replies::reply;
use requests::request::RequestFA;
use transfer::phase::Phase;
use transfer::state::{Leg, Step, Transfer};

#[tactic(auto, unfolding(crate::specs::FA::answer_fa))]
pub fn answer(t: Transfer, r: RequestFA, board: Board) -> Step
    ensures { result ≡ answer_fa t board r }
{
    if refused(r, board) {
        return Step::replied(t, reply::fa(r.channel, state::FA_DENIED, board.soft));
    }
    Step::replied(
        asked(t, r),
        reply::fa(r.channel, state::GRANTED, board.soft),
    )
}

fn asked(t: Transfer, r: RequestFA) -> Transfer
    ensures { result ≡ asked t r }
{
    t.with_leg(Leg {
        phase: Phase::Asked,
        channel: r.channel,
        agreed: r.len1.min(MAX_PACKET),
        ..t.leg
    })
}

fn refused(r: RequestFA, board: Board) -> bool
    ensures { result ≡ refused_fa board r }
{
    !board.permit || r.len1 < MIN_PACKET
}
