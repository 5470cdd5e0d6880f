// Outcome 9's sentence, for what a session holds.
ghost use Rattle.std.specs.Prelude.{◌≡◌, ◌≤◌};
ghost use Rattle.boards.specs.Boards.{max_boards};
ghost use Rattle.session.specs.Lawful.{bad_lengths, bad_last, bad_check, bad_size, bad_session_fields, unlawful};

use crate::session::{Session, bad_area};
use boards::board::Board;
use boards::list;
use commands::limits::{MAX_NEXT, MAX_PACKET, MIN_PACKET};
use transfer::phase::{has_image, is_idle, is_receiving_or_done};
use transfer::state::Transfer;

impl Session {
    #[tactic(auto, unfolding(crate::specs::Lawful::unlawful))]
    pub fn unlawful(self) -> bool
        ensures { result ≡ unlawful self }
    {
        list::bad_list(self.boards, self.count)
            || bad_area(self.opened)
            || bad_lengths(self.transfer, self.opened)
            || bad_last(self.transfer)
            || bad_check(self.transfer)
            || bad_session_fields(self.transfer, self.boards, self.count)
    }
}

fn bad_lengths(t: Transfer, opened: usize) -> bool
    ensures { result ≡ bad_lengths t opened }
{
    t.image.announced < t.progress.stored || opened < t.image.announced || MAX_NEXT < t.leg.next
}

// The last packet's length.
fn bad_last(t: Transfer) -> bool
    ensures { result ≡ bad_last t }
{
    MAX_PACKET < t.progress.last || t.progress.stored < t.progress.last
}

// A running end check.
fn bad_check(t: Transfer) -> bool
    ensures { result ≡ bad_check t }
{
    t.check.running
        && (t.image.announced <= t.check.read
            || t.progress.stored != t.image.announced
            || !is_receiving_or_done(t.leg.phase))
}

fn bad_session_fields(t: Transfer, boards: [Board; list::MAX_BOARDS], count: usize) -> bool
    requires { count ≤ max_boards }
    ensures { result ≡ bad_session_fields t boards count }
{
    !is_idle(t.leg.phase)
        && (count <= list::place_of(boards, count, t.leg.channel)
            || bad_size(t.leg.agreed)
            || has_image(t.leg.phase) && t.image.announced == 0)
}

fn bad_size(agreed: usize) -> bool
    ensures { result ≡ bad_size agreed }
{
    agreed < MIN_PACKET || MAX_PACKET < agreed
}
