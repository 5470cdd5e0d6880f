// The outward F9.
ghost use Rattle.controller.specs.OutwardReport.{ReportLeaves};

use crate::record::Record;
use boards::report;
use boards::report::{BOARD_SIZE, REPORT_OVERHEAD};
use commands::outcome::Outcome;

// No `Result`: 01 has a length with a refusal too, and `reported` names it.
#[derive(Clone, Copy, PartialEq, Eq)]
pub struct Reported {
    pub outcome: Outcome,
    pub length: usize,
}

impl Record {
    // Writes the list to the front of room, as the module is told it. The record stays as it is.
    #[tactic(auto, unfolding(crate::specs::OutwardReport::report_refusal, crate::specs::OutwardReport::reported, crate::specs::OutwardReport::room_reported))]
    pub fn report(self, room: &mut [u8]) -> Reported
        ensures { ReportLeaves self room.old result room.new }
    {
        if self.unlawful() {
            return Reported {
                outcome: Outcome::RulesBroken,
                length: 0,
            };
        }
        if room.len() < REPORT_OVERHEAD + BOARD_SIZE * self.session.count {
            return Reported {
                outcome: Outcome::ShortReportRoom,
                length: 0,
            };
        }
        Reported {
            outcome: Outcome::Accepted,
            length: report::write(self.session.boards, self.session.count, room),
        }
    }
}
