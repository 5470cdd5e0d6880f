// Portions of the end check.
ghost use Rattle.std.specs.Prelude.{◌≡◌};
ghost use Rattle.controller.specs.Portions.{refused_portion, portioned_by, portion_call, PortionLeft};

use crate::call::{refusal, write_reply};
use crate::record::Record;
use commands::outcome::Outcome;
use commands::table;
use image::check::Verdict;
use session::check::Checked;

// What a portion call gives; `count` is how many bytes of the image it read. With a verdict comes the reply to FE, the first
// `reply_length` bytes of the room.
// No `Result`: 02 (K5) has a refused call say count 0 and unfinished.
#[derive(Clone, Copy)]
pub struct Portioned {
    pub outcome: Outcome,
    pub reply_length: usize,
    pub count: usize,
    pub verdict: Verdict,
    pub next: Record,
}

impl Record {
    // Goes on with the end check that an FE has started, by at most `most` bytes of the image.
    #[tactic(auto, unfolding(crate::specs::Portions::portion_call))]
    pub fn portion(self, most: usize, room: &mut [u8], area: &[u8]) -> Portioned
        ensures { PortionLeft (portion_call most self room.old area.now) result room.new }
    {
        if let Some(outcome) = refusal(self, room.len(), area.len()) {
            return refused(self, outcome);
        }
        let c = self.session.portion(most, area);
        let reply_length = write_reply(c.reply, table::FE, room);
        from_session(self, c, reply_length)
    }
}

// The session's part, its 18 included. The reader is left as it is, with what stands past the held bytes.
fn from_session(r: Record, c: Checked, reply_length: usize) -> Portioned
    ensures { result ≡ portioned_by r c reply_length }
{
    Portioned {
        outcome: c.outcome,
        reply_length,
        count: c.count,
        verdict: c.verdict,
        next: Record {
            session: c.session,
            ..r
        },
    }
}

// Nothing is read and nothing changes.
fn refused(r: Record, outcome: Outcome) -> Portioned
    ensures { result ≡ refused_portion outcome r }
{
    Portioned {
        outcome,
        reply_length: 0,
        count: 0,
        verdict: Verdict::Unfinished,
        next: r,
    }
}
