#![tactic(auto)]

// The two ends of the bench's link: the sender opened, and both called with the frames of the link.
//
// - `open_sender`: a sender of an image to the bench's board, which `bench::open_on` opens.
// - `request`, `reply`: the frames that they send.
// - `hear`, `feed`: a frame arrives at the sender, at the controller. `check` goes on with the controller's end check.
ghost use Rattle.std.specs.Prelude.{◌≡◌, length};
ghost use Rattle.sender.specs.Replies.{after_reply};
ghost use Rattle.controller.specs.Calls.{fed_call, Leaves};
ghost use Rattle.controller.specs.Portions.{portion_call, PortionLeft};
ghost use Rattle.bench.specs.Calls.{most_read};
ghost use Rattle.ends.specs.Ends.{SenderOpens, request_sent, reply_sent, frame_bytes};

use bench::{AREA, PORTION};
use controller::call::{Called, MIN_ROOM};
use controller::portion::Portioned;
use controller::record::Record;
use fronts::MAX_FRAME;
use link::frame::{Frame, Way};
use sender::decision::Decided;
use sender::sender::Sender;
use sequences::part::front;
use sequences::place;

// A sender of this image to the bench's board on that channel. Opening refuses no size from 16 on and no image that has a byte and fits.
pub fn open_sender(channel: u8, size: u16, image: &[u8]) -> Sender
    ensures { SenderOpens channel size (length image.now) result }
{
    Sender::open(channel, [0; 8], [1, 0, 3], [0; 16], size, image).sender
}

// The request that the sender stands at.
pub fn request(sender: Sender, image: &[u8]) -> Frame
    ensures { result ≡ request_sent sender image.now }
{
    let mut bytes = [0u8; MAX_FRAME];
    let length = sender.request(image, &mut bytes).length;
    Frame {
        way: Way::ToController,
        bytes,
        length,
    }
}

// The reply that the controller has put to the front of its room.
pub fn reply(room: [u8; MIN_ROOM], length: usize) -> Frame
    ensures { result ≡ reply_sent room length }
{
    let mut bytes = [0u8; MAX_FRAME];
    place::copy(&room, &mut bytes);
    Frame {
        way: Way::ToSender,
        bytes,
        length,
    }
}

// A reply arrives at the sender.
pub fn hear(sender: Sender, frame: Frame, image: &[u8]) -> Decided
    ensures { result ≡ after_reply sender image.now (frame_bytes frame) }
{
    sender.reply(image, front(&frame.bytes, frame.length))
}

// A request arrives at the controller.
pub fn feed(
    record: Record,
    frame: Frame,
    room: &mut [u8; MIN_ROOM],
    area: &mut [u8; AREA],
) -> Called
    ensures { Leaves (fed_call (frame_bytes frame) «record» room.old area.old) result room.new
        area.new }
{
    record.feed(front(&frame.bytes, frame.length), room, area)
}

// The controller goes on with its end check.
pub fn check(record: Record, room: &mut [u8; MIN_ROOM], area: &[u8; AREA]) -> Portioned
    ensures { PortionLeft (portion_call most_read «record» room.old area.now) result room.new }
{
    record.portion(PORTION, room, area)
}
