// The session by value, and its opening.
ghost use Rattle.std.specs.Prelude.{◌≡◌};
ghost use Rattle.session.specs.Opening.{bad_area, no_session, opened};

use boards::board::Board;
use boards::list;
use commands::limits::MAX_AREA;
use commands::outcome::Outcome;
use transfer::state::Transfer;

#[derive(Clone, Copy)]
pub struct Session {
    pub boards: [Board; list::MAX_BOARDS],
    // How many of them are used.
    pub count: usize,
    // The area's length at opening.
    pub opened: usize,
    pub transfer: Transfer,
}

// What opening gives. A refused opening hands back the all-zero session, which no call accepts.
// No `Result`: `SessionOpens.refused` names the session that comes with a refusal.
#[derive(Clone, Copy)]
pub struct Opening {
    pub outcome: Outcome,
    pub session: Session,
}

impl Session {
    #[tactic(auto, unfolding(crate::specs::Opening::opened, crate::specs::Opening::fresh_session))]
    pub fn open(boards: [Board; list::MAX_BOARDS], count: usize, area: usize) -> Opening
        ensures { result ≡ opened boards count area }
    {
        if list::bad_list(boards, count) {
            return Opening {
                outcome: Outcome::BadList,
                session: Session::none(),
            };
        }
        if bad_area(area) {
            return Opening {
                outcome: Outcome::BadArea,
                session: Session::none(),
            };
        }
        Opening {
            outcome: Outcome::Accepted,
            session: Session {
                boards: list::list_of(boards, count),
                count,
                opened: area,
                transfer: Transfer::none(),
            },
        }
    }

    // The all-zero session.
    pub fn none() -> Session
        ensures { result ≡ no_session }
    {
        Session {
            boards: [list::no_board(); list::MAX_BOARDS],
            count: 0,
            opened: 0,
            transfer: Transfer::none(),
        }
    }

    pub(crate) fn with_transfer(self, transfer: Transfer) -> Session
        ensures { result ≡ record { boards = self.boards; count = self.count; opened = self.opened; transfer = transfer } }
    {
        Session { transfer, ..self }
    }
}

pub(crate) fn bad_area(length: usize) -> bool
    ensures { result ≡ bad_area length }
{
    length < 1 || MAX_AREA < length
}
