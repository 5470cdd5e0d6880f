// The sender's record by value, in three groups by what changes together, and the ways in which it changes.
ghost use Rattle.std.specs.Prelude.{◌≡◌, ◌<◌};
ghost use Rattle.sender.specs.Senders.{max_silences, no_sender, begun, moved_to, again, packet_size, next_size};

use crate::phase::Phase;
use commands::limits::MAX_PACKET;

// How many silences for one request, and how many new legs, there may be: after three comes another leg, or giving up.
pub const MAX_SILENCES: usize = 3;

pub const MAX_LEGS: usize = 3;

// The image as it is told to the controller. It stays as opening was given it.
#[derive(Clone, Copy)]
pub struct Offer {
    pub channel: u8,
    pub pid: [u8; 8],
    pub version: [u8; 3],
    pub md5: [u8; 16],
    // The packet size: FA's Len1.
    pub size: u16,
    // The image's length at opening.
    pub length: usize,
}

// The request that the record stands at.
#[derive(Clone, Copy)]
pub struct Position {
    pub phase: Phase,
    // Placing: the offset to ask for. Sending: where in the image the packet to send begins.
    pub place: usize,
    // Sending: that packet's number.
    pub number: usize,
}

// What was tried in vain.
#[derive(Clone, Copy)]
pub struct Tries {
    // Silences told since the request last changed.
    pub silences: usize,
    // New legs begun since opening.
    pub new_legs: usize,
}

#[derive(Clone, Copy)]
pub struct Sender {
    pub offer: Offer,
    pub position: Position,
    pub tries: Tries,
}

impl Sender {
    // The all-zero record, which no call accepts.
    pub fn none() -> Sender
        ensures { result ≡ no_sender }
    {
        let nothing = Offer {
            channel: 0,
            pid: [0; 8],
            version: [0; 3],
            md5: [0; 16],
            size: 0,
            length: 0,
        };
        Sender::begun(nothing, 0)
    }

    // A leg begins: with FA.
    pub(crate) fn begun(offer: Offer, new_legs: usize) -> Sender
        ensures { result ≡ begun offer new_legs }
    {
        Sender {
            offer,
            position: Position {
                phase: Phase::Asking,
                place: 0,
                number: 0,
            },
            tries: Tries {
                silences: 0,
                new_legs,
            },
        }
    }

    // Another request, or none any more.
    pub(crate) fn moved_to(mut self, phase: Phase, place: usize, number: usize) -> Sender
        ensures { result ≡ moved_to self phase place number }
    {
        self.position = Position {
            phase,
            place,
            number,
        };
        self.tries.silences = 0;
        self
    }

    // The same request once more.
    pub(crate) fn again(mut self) -> Sender
        requires { self.tries.silences < max_silences }
        ensures { result ≡ again self }
    {
        self.tries.silences += 1;
        self
    }

    // How many bytes the packet to send has.
    pub(crate) fn next_size(self) -> usize
        ensures { result ≡ next_size self }
    {
        let left = self.offer.length.saturating_sub(self.position.place);
        left.min(packet_size(self.offer.size as usize))
    }
}

// The smaller of size and 512.
pub(crate) fn packet_size(size: usize) -> usize
    ensures { result ≡ packet_size size }
{
    size.min(MAX_PACKET)
}
