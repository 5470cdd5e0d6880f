// What the sender's caller is to do after a reply or a silence.
ghost use Rattle.std.specs.Prelude.{◌≡◌};
ghost use Rattle.sender.specs.Decisions.{decided, nothing_decided};

use crate::sender::Sender;
use commands::outcome::Outcome;

#[derive(Clone, Copy, PartialEq, Eq)]
pub enum Decision {
    // The call was refused: go on waiting.
    Nothing,
    // Ask for the next request and send it.
    GoOn,
    // Ask for the request, which is the same, and send it.
    SendAgain,
    // Drop every frame under way, both ways, ask for the request and send it.
    NewLeg,
    // Stop.
    Done,
    GivenUp,
}

// Not a Result: `UnlessAccepted` (specs/Kept) promises the decision and the record of a refused call too.
#[derive(Clone, Copy)]
pub struct Decided {
    pub outcome: Outcome,
    pub decision: Decision,
    pub next: Sender,
}

impl Decided {
    // Refused with this outcome.
    pub(crate) fn nothing(sender: Sender, outcome: Outcome) -> Decided
        ensures { result ≡ nothing_decided sender outcome }
    {
        Decided {
            outcome,
            decision: Decision::Nothing,
            next: sender,
        }
    }

    pub(crate) fn to(decision: Decision, next: Sender) -> Decided
        ensures { result ≡ decided decision next }
    {
        Decided {
            outcome: Outcome::Accepted,
            decision,
            next,
        }
    }
}
