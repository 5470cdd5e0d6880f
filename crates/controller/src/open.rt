// Opening of the record.
ghost use Rattle.std.specs.Prelude.{◌≡◌};
ghost use Rattle.controller.specs.Records.{opened_record};

use crate::record::Record;
use boards::board::Board;
use boards::list::MAX_BOARDS;
use commands::outcome::Outcome;
use frames::reader::Reader;
use fronts::MAX_FRAME;
use session::session::Session;

// What opening gives. A refused opening hands back the all-zero record.
// No `Result`: `HandsBack.zero` names the record that comes with a refusal.
#[derive(Clone, Copy)]
pub struct Opened {
    pub outcome: Outcome,
    pub next: Record,
}

impl Record {
    // The first `count` boards of the list, and the length of the area that every call will lend.
    #[tactic(auto, unfolding(crate::specs::Records::opened_record))]
    pub fn open(boards: [Board; MAX_BOARDS], count: usize, area: usize) -> Opened
        ensures { result ≡ opened_record boards count area }
    {
        let o = Session::open(boards, count, area);
        Opened {
            outcome: o.outcome,
            next: Record {
                reader: Reader {
                    held: [0; MAX_FRAME],
                    count: 0,
                },
                session: o.session,
            },
        }
    }
}
