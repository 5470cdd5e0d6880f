// The next request: it is read off the record and the image.
ghost use Rattle.std.specs.Prelude.{◌≡◌};
ghost use Rattle.frames.specs.Finished.{finished};
ghost use Rattle.requests.specs.RequestFrames.{data_fb, request_frame};
ghost use Rattle.sender.specs.Requests.{telling_of, packet_frame, request_of, sender_refusal, RefusedWith, RequestGiven};

use crate::phase::{Phase, is_final};
use crate::sender::{Offer, Sender};
use commands::outcome::Outcome;
use frames::finished::FinishedFrame;
use fronts::MAX_FRAME;
use requests::request::{RequestFA, RequestFB, RequestFC, RequestFD};
use requests::request_frame;
use sequences::part::part;

// What the call gives: the request's length, 0 where there is none.
#[derive(Clone, Copy)]
pub struct Requested {
    pub outcome: Outcome,
    pub length: usize,
}

impl Sender {
    // Writes the request to the front of room; room past it stays.
    pub fn request(self, image: &[u8], room: &mut [u8]) -> Requested
        ensures { RequestGiven self image.now room.old result room.new }
    {
        if let Some(refusal) = self.refusal(image.len()) {
            return without_request(refusal);
        }
        if room.len() < MAX_FRAME {
            return without_request(Outcome::ShortRoom);
        }
        if is_final(self.position.phase) {
            return without_request(Outcome::Accepted);
        }
        let frame = self.frame(image);
        Requested {
            outcome: Outcome::Accepted,
            length: frame.write(room),
        }
    }

    // What every call checks first, in this order.
    pub(crate) fn refusal(self, n: usize) -> Option<Outcome>
        ensures { RefusedWith (sender_refusal self n) result }
    {
        if self.breaks_rules() {
            Some(Outcome::RulesBroken)
        } else if n != self.offer.length {
            Some(Outcome::WrongImage)
        } else {
            None
        }
    }

    // The request; a frame without a command where there is none any more.
    fn frame(self, image: &[u8]) -> FinishedFrame
        ensures { result ≡ finished (request_of self image.now) }
    {
        match self.position.phase {
            Phase::Asking => request_frame::fa(RequestFA {
                channel: self.offer.channel,
                len1: self.offer.size as usize,
            }),
            Phase::Telling => self.telling(image),
            Phase::Placing => request_frame::fc(RequestFC {
                channel: self.offer.channel,
                offset: self.position.place,
            }),
            Phase::Sending => self.sending(image),
            Phase::Ending => request_frame::fe(self.offer.channel),
            _ => FinishedFrame::empty(0, 0),
        }
    }

    fn telling(self, image: &[u8]) -> FinishedFrame
        ensures { result ≡ finished (request_frame 0xFB (data_fb (telling_of self image.now))) }
    {
        let Offer {
            channel,
            pid,
            version,
            md5,
            length,
            ..
        } = self.offer;
        request_frame::fb(RequestFB {
            channel,
            pid,
            version,
            md5,
            length,
            crc: crc32::checksum(image),
        })
    }

    fn sending(self, image: &[u8]) -> FinishedFrame
        ensures { result ≡ finished (packet_frame self image.now) }
    {
        let size = self.next_size();
        let packet = part(image, self.position.place, size);
        let fields = RequestFD {
            channel: self.offer.channel,
            number: self.position.number,
            size,
            crc: crc16::modbus(packet) as usize,
        };
        request_frame::fd(fields, packet)
    }
}

fn without_request(outcome: Outcome) -> Requested
    ensures { result ≡ record { outcome = outcome; length = 0 } }
{
    Requested { outcome, length: 0 }
}
