// No reply came.
ghost use Rattle.std.specs.Prelude.{◌≡◌, length};
ghost use Rattle.sender.specs.Decisions.{given_up, leg_over};
ghost use Rattle.sender.specs.Silences.{unheard, after_silence};

use crate::decision::{Decided, Decision};
use crate::phase::Phase;
use crate::sender::{MAX_LEGS, MAX_SILENCES, Sender};

impl Sender {
    pub fn silence(self, image: &[u8]) -> Decided
        ensures { result ≡ after_silence self (length image.now) }
    {
        if let Some(refusal) = self.refusal(image.len()) {
            return Decided::nothing(self, refusal);
        }
        match self.position.phase {
            Phase::Done => Decided::to(Decision::Done, self),
            Phase::GivenUp => Decided::to(Decision::GivenUp, self),
            _ => self.unheard(),
        }
    }

    // A request is sent four times in all.
    pub(crate) fn unheard(self) -> Decided
        ensures { result ≡ unheard self }
    {
        if self.tries.silences < MAX_SILENCES {
            return Decided::to(Decision::SendAgain, self.again());
        }
        self.leg_over()
    }

    // The leg is lost: another begins, but for the fourth time.
    pub(crate) fn leg_over(self) -> Decided
        ensures { result ≡ leg_over self }
    {
        if self.tries.new_legs < MAX_LEGS {
            let next = Sender::begun(self.offer, self.tries.new_legs + 1);
            return Decided::to(Decision::NewLeg, next);
        }
        self.given_up()
    }

    pub(crate) fn given_up(self) -> Decided
        ensures { result ≡ given_up self }
    {
        Decided::to(Decision::GivenUp, self.moved_to(Phase::GivenUp, 0, 0))
    }
}
