// Feeding and quiet.
ghost use Rattle.std.specs.Prelude.{◌≡◌};
ghost use Rattle.controller.specs.Refusing.{if_refused};
ghost use Rattle.controller.specs.Calls.{refusal_of, refused_call, ReplyLeft, finished_call, fed_call, quieted_call, Leaves};

use crate::record::Record;
use commands::limits::MAX_REPLY;
use commands::outcome::Outcome;
use frames::reader::Fed;
use fronts::OVERHEAD;
use replies::reply;
use session::session::Session;

// The least room for a reply: the longest one, FB's.
pub const MIN_ROOM: usize = OVERHEAD + MAX_REPLY;

// What a call gives. The reply is the first `reply_length` bytes of the room; `command` and `data_length` are the frame's.
// No `Result`: every outcome hands back a record, and 01 says these numbers for each.
#[derive(Clone, Copy)]
pub struct Called {
    pub outcome: Outcome,
    pub reply_length: usize,
    pub taken: usize,
    pub dropped: usize,
    pub command: u8,
    pub data_length: usize,
    pub next: Record,
}

impl Record {
    // Feeds new bytes from the line. `taken` of them are used; the others are to be offered again.
    #[tactic(auto, unfolding(crate::specs::Calls::called_by))]
    pub fn feed(self, input: &[u8], room: &mut [u8], area: &mut [u8]) -> Called
        ensures { Leaves (fed_call input.now self room.old area.old) result room.new
            area.new }
    {
        if let Some(outcome) = refusal(self, room.len(), area.len()) {
            return refused(self, outcome);
        }
        finish(self.reader.feed(input), self.session, room, area)
    }

    // Tells that the line is quiet: what is held and is no whole frame is dropped.
    // It says in full what `feed` does: one body for both takes the reading as a closure, which is no shorter.
    #[tactic(auto, unfolding(crate::specs::Calls::called_by))]
    pub fn quiet(self, room: &mut [u8], area: &mut [u8]) -> Called
        ensures { Leaves (quieted_call self room.old area.old) result room.new area.new }
    {
        if let Some(outcome) = refusal(self, room.len(), area.len()) {
            return refused(self, outcome);
        }
        finish(self.reader.quiet(), self.session, room, area)
    }
}

// 9, 6, 5 in this order; none where the call is not refused.
#[tactic(auto, unfolding(crate::specs::Calls::refusal_of))]
pub(crate) fn refusal(r: Record, room: usize, area: usize) -> Option<Outcome>
    ensures { result ≡ if_refused (refusal_of r room area) }
{
    if r.unlawful() {
        return Some(Outcome::RulesBroken);
    }
    if area != r.session.opened {
        return Some(Outcome::OtherArea);
    }
    if room < MIN_ROOM {
        return Some(Outcome::ShortRoom);
    }
    None
}

// Nothing is taken and nothing changes.
fn refused(r: Record, outcome: Outcome) -> Called
    ensures { result ≡ refused_call outcome r }
{
    Called {
        outcome,
        reply_length: 0,
        taken: 0,
        dropped: 0,
        command: 0,
        data_length: 0,
        next: r,
    }
}

// What the reading's end makes of the session: an answer where it found a frame.
#[tactic(auto, unfolding(crate::specs::Calls::finished_call))]
fn finish(f: Fed, session: Session, room: &mut [u8], area: &mut [u8]) -> Called
    ensures { Leaves (finished_call f session room.old area.old) result room.new area.new }
{
    if f.found {
        let a = session.answer(f.frame, area);
        let reply_length = write_reply(a.reply, f.frame.command, room);
        return Called {
            outcome: a.outcome,
            reply_length,
            taken: f.taken,
            dropped: f.dropped,
            command: f.frame.command,
            data_length: f.frame.length,
            next: Record {
                reader: f.next,
                session: a.session,
            },
        };
    }
    Called {
        outcome: Outcome::NoFrameYet,
        reply_length: 0,
        taken: f.taken,
        dropped: f.dropped,
        command: 0,
        data_length: 0,
        next: Record {
            reader: f.next,
            session,
        },
    }
}

// Writes the reply to the front of the room, where there is one.
pub(crate) fn write_reply(reply: Option<[u8; MAX_REPLY]>, command: u8, room: &mut [u8]) -> usize
    ensures { ReplyLeft «reply» command room.old result room.new }
{
    match reply {
        Some(data) => reply::write(command, data, room),
        None => 0,
    }
}
