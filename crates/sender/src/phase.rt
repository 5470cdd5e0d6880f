// Which request the sender stands at.
ghost use Rattle.std.specs.Prelude.{◌≡◌};
ghost use Rattle.sender.specs.Phases.{is_final, command_of};

use commands::table;

#[derive(Clone, Copy, PartialEq, Eq)]
pub enum Phase {
    // FA
    Asking,
    // FB
    Telling,
    // FC
    Placing,
    // FD
    Sending,
    // FE
    Ending,
    // none any more
    Done,
    GivenUp,
}

// Done and given up stay.
pub(crate) fn is_final(phase: Phase) -> bool
    ensures { result ≡ is_final phase }
{
    matches!(phase, Phase::Done | Phase::GivenUp)
}

// The command of the request; 0 where there is none: `own_reply` (specs/Replies) asks for the reply to a command of any phase.
pub(crate) fn command_of(phase: Phase) -> u8
    ensures { result ≡ command_of phase }
{
    match phase {
        Phase::Asking => table::FA,
        Phase::Telling => table::FB,
        Phase::Placing => table::FC,
        Phase::Sending => table::FD,
        Phase::Ending => table::FE,
        Phase::Done | Phase::GivenUp => 0,
    }
}
