// The state of a transfer, and the few ways in which a command or a portion of the end check changes it.
ghost use Rattle.std.specs.Prelude.{◌≡◌, true, Some};
ghost use Rattle.transfer.specs.Transfers.{no_leg, no_transfer, in_phase, with_leg, with_phase, replaced, with_check, noted};
ghost use Rattle.transfer.specs.Transfers.{unanswered, other_channel};

use crate::identity::Identity;
use crate::phase::Phase;
use commands::limits::MAX_REPLY;
use image::check::Check;
use image::progress::Progress;

// What a transfer has agreed on, and how far its frames have come.
#[derive(Clone, Copy, PartialEq, Eq)]
pub struct Leg {
    pub phase: Phase,
    // The session's channel.
    pub channel: u8,
    // The agreed packet size.
    pub agreed: usize,
    // The next packet's number.
    pub next: usize,
}

#[derive(Clone, Copy)]
pub struct Transfer {
    pub leg: Leg,
    pub progress: Progress,
    pub image: Identity,
    pub check: Check,
}

// What a command or a portion makes of a transfer, and the reply's data, where there is a reply. Without an answer there is none, and the
// transfer is the old one.
#[derive(Clone, Copy)]
pub struct Step {
    pub answered: bool,
    pub transfer: Transfer,
    pub reply: Option<[u8; MAX_REPLY]>,
}

impl Step {
    pub fn replied(transfer: Transfer, reply: [u8; MAX_REPLY]) -> Step
        ensures { result ≡ record { answered = true; transfer = transfer; reply = Some reply } }
    {
        Step {
            answered: true,
            transfer,
            reply: Some(reply),
        }
    }

    // Answered without a reply.
    pub fn noted(transfer: Transfer) -> Step
        ensures { result ≡ noted transfer }
    {
        Step {
            answered: true,
            transfer,
            reply: None,
        }
    }

    pub fn unanswered(transfer: Transfer) -> Step
        ensures { result ≡ unanswered transfer }
    {
        Step {
            answered: false,
            transfer,
            reply: None,
        }
    }
}

impl Leg {
    fn none() -> Leg
        ensures { result ≡ no_leg }
    {
        Leg {
            phase: Phase::Idle,
            channel: 0,
            agreed: 0,
            next: 0,
        }
    }

    pub fn in_phase(self, phase: Phase) -> Leg
        ensures { result ≡ in_phase self phase }
    {
        Leg { phase, ..self }
    }
}

impl Transfer {
    pub fn none() -> Transfer
        ensures { result ≡ no_transfer }
    {
        Transfer {
            leg: Leg::none(),
            progress: Progress::from(0),
            image: Identity::none(),
            check: Check::none(),
        }
    }

    pub fn with_leg(self, leg: Leg) -> Transfer
        ensures { result ≡ with_leg self leg }
    {
        Transfer { leg, ..self }
    }

    pub fn with_phase(self, phase: Phase) -> Transfer
        ensures { result ≡ with_phase self phase }
    {
        self.with_leg(self.leg.in_phase(phase))
    }

    // Another image (FB), or none any more (a failed end check): nothing of it is stored.
    pub fn replaced(self, phase: Phase, image: Identity) -> Transfer
        ensures { result ≡ replaced self phase image }
    {
        Transfer {
            leg: self.leg.in_phase(phase),
            progress: Progress::from(0),
            image,
            ..self
        }
    }

    pub fn with_check(self, check: Check) -> Transfer
        ensures { result ≡ with_check self check }
    {
        Transfer { check, ..self }
    }

    pub fn other_channel(self, channel: u8) -> bool
        ensures { result ≡ other_channel self channel }
    {
        channel != self.leg.channel
    }
}
