// The phases of a transfer, in the order in which a granted one passes through them.
ghost use Rattle.std.specs.Prelude.{◌≡◌};
ghost use Rattle.transfer.specs.Phases.{idle, has_image, told_or_receiving, receiving, receiving_or_done};

#[derive(Clone, Copy, PartialEq, Eq)]
pub enum Phase {
    Idle,
    Asked,
    Told,
    Receiving,
    Done,
}

pub fn is_idle(p: Phase) -> bool
    ensures { result ≡ idle p }
{
    matches!(p, Phase::Idle)
}

pub fn has_image(p: Phase) -> bool
    ensures { result ≡ has_image p }
{
    matches!(p, Phase::Told | Phase::Receiving | Phase::Done)
}

pub fn is_told_or_receiving(p: Phase) -> bool
    ensures { result ≡ told_or_receiving p }
{
    matches!(p, Phase::Told | Phase::Receiving)
}

pub fn is_receiving(p: Phase) -> bool
    ensures { result ≡ receiving p }
{
    matches!(p, Phase::Receiving)
}

pub fn is_receiving_or_done(p: Phase) -> bool
    ensures { result ≡ receiving_or_done p }
{
    matches!(p, Phase::Receiving | Phase::Done)
}
