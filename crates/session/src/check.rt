// A portion of the end check.
ghost use Rattle.std.specs.Prelude.{◌≡◌};
ghost use Rattle.session.specs.Checking.{outcome_of, refused_check, checked_by, checked};

use crate::session::Session;
use commands::limits::MAX_REPLY;
use commands::outcome::Outcome;
use ending::check;
use ending::check::CheckStep;
use image::check::Verdict;

// What a portion call makes of a session, and the data of FE's reply, which comes with the verdict. A refused call reads nothing, has no
// verdict and changes nothing.
#[derive(Clone, Copy)]
pub struct Checked {
    pub outcome: Outcome,
    pub count: usize,
    pub verdict: Verdict,
    pub session: Session,
    pub reply: Option<[u8; MAX_REPLY]>,
}

impl Session {
    // Reads at most `most` bytes of the image on. An unlawful session, an area of another length than the opened one, and a session whose
    // check does not run are refused.
    #[tactic(auto, unfolding(crate::specs::Checking::checked))]
    pub fn portion(self, most: usize, area: &[u8]) -> Checked
        ensures { result ≡ checked self most area.now }
    {
        if self.unlawful() {
            return Checked::refused(Outcome::RulesBroken, self);
        }
        if area.len() != self.opened {
            return Checked::refused(Outcome::OtherArea, self);
        }
        if !self.transfer.check.running {
            return Checked::refused(Outcome::NoCheckRuns, self);
        }
        Checked::portion(self, check::portion(self.transfer, most, area))
    }
}

impl Checked {
    fn refused(outcome: Outcome, session: Session) -> Checked
        ensures { result ≡ refused_check outcome session }
    {
        Checked {
            outcome,
            count: 0,
            verdict: Verdict::Unfinished,
            session,
            reply: None,
        }
    }

    fn portion(session: Session, portion: CheckStep) -> Checked
        ensures { result ≡ checked_by session «portion» }
    {
        Checked {
            outcome: outcome_of(portion.verdict),
            count: portion.count,
            verdict: portion.verdict,
            session: session.with_transfer(portion.step.transfer),
            reply: portion.step.reply,
        }
    }
}

fn outcome_of(verdict: Verdict) -> Outcome
    ensures { result ≡ outcome_of verdict }
{
    match verdict {
        Verdict::Unfinished => Outcome::Unfinished,
        Verdict::Right | Verdict::Wrong => Outcome::Accepted,
    }
}
