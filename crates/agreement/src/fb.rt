// FB: which image it is, and how much of it stands in the area already.
ghost use Rattle.std.specs.Prelude.{◌≡◌, ◌||◌, not, eqb, ltb};
ghost use Rattle.transfer.specs.Phases.{idle};
ghost use Rattle.sequences.specs.Comparing.{same};
ghost use Rattle.agreement.specs.Versions.{newer};
ghost use Rattle.transfer.specs.Transfers.{other_channel};
ghost use Rattle.agreement.specs.FB.{state_fb, after_fb, answer_fb, grant_fb};

use crate::identity;
use crate::version::newer;
use boards::board::Board;
use commands::state;
use replies::reply;
use requests::request::RequestFB;
use transfer::phase::{Phase, is_idle};
use transfer::state::{Step, Transfer};

#[tactic(auto, unfolding(crate::specs::FB::answer_fb))]
pub fn answer(t: Transfer, r: RequestFB, board: Board, area: &[u8]) -> Step
    ensures { result ≡ answer_fb t board r area.now }
{
    if not_in_session(t, r.channel) {
        return Step::unanswered(t);
    }
    let state = state_for(r, board, area.len());
    if state == state::GRANTED {
        return grant(t, r, area);
    }
    let next = t.with_phase(Phase::Idle);
    Step::replied(next, reply::fb(r.channel, state, 0, 0))
}

fn not_in_session(t: Transfer, channel: u8) -> bool
    ensures { result ≡ (idle t.leg.phase || other_channel t channel) }
{
    is_idle(t.leg.phase) || t.other_channel(channel)
}

// The CRC-32 is taken of the area's bytes as they stand, after it is settled how many stay.
#[tactic(auto, unfolding(crate::specs::FB::grant_fb))]
fn grant(t: Transfer, r: RequestFB, area: &[u8]) -> Step
    ensures { result ≡ grant_fb t r area.now }
{
    let next = after_grant(t, r);
    let crc = next.progress.checksum(area);
    Step::replied(
        next,
        reply::fb(r.channel, state::GRANTED, next.progress.stored, crc),
    )
}

fn after_grant(t: Transfer, r: RequestFB) -> Transfer
    ensures { result ≡ after_fb t r }
{
    let told = identity::told(r);
    if told == t.image {
        return t.with_phase(Phase::Told);
    }
    t.replaced(Phase::Told, told)
}

// The state that FB's reply carries, the area having n bytes. It stays the wire's byte: the definition `state_fb`, which the claims about
// FB name, gives it.
#[tactic(auto, unfolding(crate::specs::FB::state_fb))]
fn state_for(r: RequestFB, board: Board, n: usize) -> u8
    ensures { result ≡ state_fb board r n }
{
    if other_pid(r, board) {
        return state::FB_OTHER_PID;
    }
    if not_newer(r, board) {
        return state::FB_OLD_VERSION;
    }
    if bad_length(r, n) {
        return state::FB_BAD_LENGTH;
    }
    state::GRANTED
}

fn other_pid(r: RequestFB, board: Board) -> bool
    ensures { result ≡ not (same r.pid board.pid) }
{
    r.pid != board.pid
}

fn not_newer(r: RequestFB, board: Board) -> bool
    ensures { result ≡ not (newer r.version board.soft) }
{
    !newer(r.version, board.soft)
}

fn bad_length(r: RequestFB, n: usize) -> bool
    ensures { result ≡ (eqb r.length 0 || ltb n r.length) }
{
    r.length == 0 || n < r.length
}
