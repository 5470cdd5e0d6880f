// Opening the record.
ghost use Rattle.std.specs.Prelude.{◌≡◌, length};
ghost use Rattle.sender.specs.Opening.{offer_of, opened_sender};

use crate::rules::bad_offer;
use crate::sender::{Offer, Sender};
use commands::outcome::Outcome;

// What opening gives. A refused opening hands back the all-zero record: `SenderKeeps` (specs/Kept) says so, hence no Result.
#[derive(Clone, Copy)]
pub struct Opened {
    pub outcome: Outcome,
    pub sender: Sender,
}

impl Sender {
    pub fn open(
        channel: u8,
        pid: [u8; 8],
        version: [u8; 3],
        md5: [u8; 16],
        size: u16,
        image: &[u8],
    ) -> Opened
        ensures { result ≡ opened_sender (offer_of channel pid version md5 size (length image.now)) }
    {
        let offer = Offer {
            channel,
            pid,
            version,
            md5,
            size,
            length: image.len(),
        };
        if bad_offer(offer) {
            return Opened {
                outcome: Outcome::WrongImage,
                sender: Sender::none(),
            };
        }
        Opened {
            outcome: Outcome::Accepted,
            sender: Sender::begun(offer, 0),
        }
    }
}
