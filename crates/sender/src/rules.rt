// Whether a record breaks its rules: outcome 9.
ghost use Rattle.std.specs.Prelude.{◌≡◌, ◌≤◌};
ghost use Rattle.commands.specs.Limits.{min_packet};
ghost use Rattle.sender.specs.Rules.{bad_offer, bad_tries, bad_packet, bad_position, breaks_rules};

use crate::phase::Phase;
use crate::sender::{MAX_LEGS, MAX_SILENCES, Offer, Position, Sender, Tries, packet_size};
use commands::limits::{MAX_AREA, MIN_PACKET};

impl Sender {
    pub fn breaks_rules(self) -> bool
        ensures { result ≡ breaks_rules self }
    {
        bad_offer(self.offer) || bad_tries(self.tries) || bad_position(self.position, self.offer)
    }
}

// Whether a packet size, or an image's length, is none that can be sent.
pub(crate) fn bad_offer(offer: Offer) -> bool
    ensures { result ≡ bad_offer offer }
{
    (offer.size as usize) < MIN_PACKET || offer.length == 0 || MAX_AREA < offer.length
}

fn bad_tries(tries: Tries) -> bool
    ensures { result ≡ bad_tries tries }
{
    MAX_SILENCES < tries.silences || MAX_LEGS < tries.new_legs
}

fn bad_position(position: Position, offer: Offer) -> bool
    requires { min_packet ≤ offer.size }
    ensures { result ≡ bad_position position offer }
{
    match position.phase {
        Phase::Placing => offer.length < position.place,
        Phase::Sending => bad_packet(position, offer),
        _ => false,
    }
}

// The number is compared with the whole packets before place: a product could be too large.
fn bad_packet(position: Position, offer: Offer) -> bool
    requires { min_packet ≤ offer.size }
    ensures { result ≡ bad_packet position offer }
{
    let packet = packet_size(offer.size as usize);
    offer.length <= position.place || position.place / packet < position.number
}
