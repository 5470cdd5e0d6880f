// What a finished frame is answered.
ghost use Rattle.std.specs.Prelude.{◌≡◌, false, ◌≤◌, ◌<◌, length};
ghost use Rattle.boards.specs.Boards.{max_boards};
ghost use Rattle.session.specs.Lawful.{unlawful};
ghost use Rattle.session.specs.Answering.{unchanged, stepped, place_for, effect_of, routed, judged, reaction};

use crate::session::Session;
use agreement::{fa, fb, fc};
use boards::board::Board;
use boards::list;
use commands::limits::MAX_REPLY;
use commands::outcome::Outcome;
use commands::table;
use commands::table::Header;
use ending::fe;
use frames::finished::FinishedFrame;
use packets::fd;
use requests::request;
use transfer::state::{Step, Transfer};

// What a frame makes of a session, and the reply's data, where there is a reply: only with outcome 0.
#[derive(Clone, Copy)]
pub struct Answer {
    pub outcome: Outcome,
    pub session: Session,
    pub reply: Option<[u8; MAX_REPLY]>,
}

impl Session {
    // The answer to a finished frame. An unlawful session, or an area of another length than the opened one, is refused.
    #[tactic(auto, unfolding(crate::specs::Answering::reaction))]
    pub fn answer(self, f: FinishedFrame, area: &mut [u8]) -> Answer
        ensures { (result ≡ (reaction self f area.old).gives) ×
            (area.new ≡ (reaction self f area.old).area) }
    {
        if self.unlawful() {
            return Answer::unchanged(Outcome::RulesBroken, self);
        }
        if area.len() != self.opened {
            return Answer::unchanged(Outcome::OtherArea, self);
        }
        self.judge(f, area)
    }

    // Outcomes 2 and 3, by the command table.
    #[tactic(auto, unfolding(crate::specs::Answering::judged))]
    fn judge(self, f: FinishedFrame, area: &mut [u8]) -> Answer
        requires { unlawful self ≡ false }
        ensures { (result ≡ (judged self f area.old).gives) × (area.new ≡ (judged self f area.old).area) }
    {
        match table::header_of(f.version, f.command, f.length) {
            Header::Unlisted => Answer::unchanged(Outcome::UnlistedCommand, self),
            Header::Wrong => Answer::unchanged(Outcome::WrongHeader, self),
            Header::Right => self.route(f, area),
        }
    }

    // F9 is noted. Any other frame goes to the board of its channel: outcome 4 where there is none, then 12 while an end check runs.
    #[tactic(auto, unfolding(crate::specs::Answering::routed))]
    fn route(self, f: FinishedFrame, area: &mut [u8]) -> Answer
        requires { unlawful self ≡ false }
        ensures { (result ≡ (routed self f area.old).gives) × (area.new ≡ (routed self f area.old).area) }
    {
        if f.command == table::F9 {
            return Answer::unchanged(Outcome::Accepted, self);
        }
        let i = self.place_for(f);
        if self.count <= i {
            return Answer::unchanged(Outcome::UnlistedChannel, self);
        }
        if self.transfer.check.running {
            return Answer::unchanged(Outcome::CheckRuns, self);
        }
        let board = list::board_at(self.boards, i);
        let step = respond(self.transfer, f, board, area);
        Answer::stepped(self, step)
    }

    fn place_for(self, f: FinishedFrame) -> usize
        requires { self.count ≤ max_boards }
        ensures { (result ≡ place_for self f) × (result ≤ self.count) }
    {
        list::place_of(self.boards, self.count, request::channel(&f.bytes))
    }
}

impl Answer {
    // No reply, nothing changed.
    fn unchanged(outcome: Outcome, session: Session) -> Answer
        ensures { result ≡ unchanged outcome session }
    {
        Answer {
            outcome,
            session,
            reply: None,
        }
    }

    fn stepped(session: Session, step: Step) -> Answer
        ensures { result ≡ stepped session step }
    {
        Answer {
            outcome: if step.answered {
                Outcome::Accepted
            } else {
                Outcome::WrongPhase
            },
            session: session.with_transfer(step.transfer),
            reply: step.reply,
        }
    }
}

// The transfer's answer to a frame of the table for its board.
#[tactic(auto, unfolding(crate::specs::Answering::effect_of))]
fn respond(t: Transfer, f: FinishedFrame, board: Board, area: &mut [u8]) -> Step
    ensures { (result ≡ (effect_of t f board area.old).gives) ×
        (area.new ≡ (effect_of t f board area.old).area) }
{
    match f.command {
        table::FA => fa::answer(t, request::fa(&f.bytes), board),
        table::FB => fb::answer(t, request::fb(&f.bytes), board, &area[..]),
        table::FC => fc::answer(t, request::fc(&f.bytes)),
        table::FD => fd::answer(
            t,
            request::fd(&f.bytes),
            request::packet(&f.bytes, f.length),
            area,
        ),
        _ => fe::answer(t, request::channel(&f.bytes)),
    }
}
