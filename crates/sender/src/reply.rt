// A reply of the controller, judged.
ghost use Rattle.std.specs.Prelude.{◌≡◌, false};
ghost use Rattle.commands.specs.Outcomes.{wrong_reply};
ghost use Rattle.sender.specs.Rules.{breaks_rules};
ghost use Rattle.sender.specs.Decisions.{nothing_decided};
ghost use Rattle.sender.specs.Replies.{AtPacket, own_reply, resume_at, onward, judged_in, after_reply, judged_fa, judged_fb};
ghost use Rattle.sender.specs.Replies.{judged_fc, judged_fd, judged_fe};

use crate::decision::{Decided, Decision};
use crate::phase::{Phase, command_of};
use crate::sender::Sender;
use commands::limits::MAX_PACKET;
use commands::outcome::Outcome;
use commands::state;
use frames::buffer;
use replies::reply_fields;
use replies::reply_fields::{ReplyFA, ReplyFB, ReplyFC, ReplyState};

impl Sender {
    // `reply` is to be one whole frame. `image` is read where FB's reply tells how much of it is stored.
    pub fn reply(self, image: &[u8], reply: &[u8]) -> Decided
        ensures { result ≡ after_reply self image.now reply.now }
    {
        if let Some(refusal) = self.refusal(image.len()) {
            return Decided::nothing(self, refusal);
        }
        if self.own_reply(reply) {
            return self.judge(buffer::data(reply), image);
        }
        self.wrong_reply()
    }

    // The reply to the record's own request, on its channel.
    fn own_reply(self, reply: &[u8]) -> bool
        ensures { result ≡ own_reply self reply.now }
    {
        reply_fields::is_reply(command_of(self.position.phase), reply)
            && reply_fields::channel(buffer::data(reply)) == self.offer.channel
    }

    // A reply that never comes here: nothing changes, and it is no silence either.
    fn wrong_reply(self) -> Decided
        ensures { result ≡ nothing_decided self wrong_reply }
    {
        Decided::nothing(self, Outcome::WrongReply)
    }

    // `fields` is the reply's data.
    fn judge(self, fields: &[u8], image: &[u8]) -> Decided
        requires { breaks_rules self ≡ false }
        ensures { result ≡ judged_in self fields.now image.now }
    {
        match self.position.phase {
            Phase::Asking => self.judge_fa(reply_fields::fa(fields)),
            Phase::Telling => self.judge_fb(reply_fields::fb(fields), image),
            Phase::Placing => self.judge_fc(reply_fields::fc(fields)),
            Phase::Sending => self.judge_fd(reply_fields::state(fields)),
            Phase::Ending => self.judge_fe(reply_fields::state(fields)),
            _ => self.wrong_reply(),
        }
    }

    fn judge_fa(self, asked: ReplyFA) -> Decided
        ensures { result ≡ judged_fa self asked }
    {
        if state::FA_DENIED < asked.flag || asked.len2 != MAX_PACKET {
            return self.wrong_reply();
        }
        if asked.flag == state::GRANTED {
            return Decided::to(Decision::GoOn, self.moved_to(Phase::Telling, 0, 0));
        }
        self.given_up()
    }

    fn judge_fb(self, told: ReplyFB, image: &[u8]) -> Decided
        ensures { result ≡ judged_fb self told image.now }
    {
        if state::FB_BAD_LENGTH < told.state {
            return self.wrong_reply();
        }
        if told.state == state::GRANTED {
            let place = resume_at(told, image);
            return Decided::to(Decision::GoOn, self.moved_to(Phase::Placing, place, 0));
        }
        self.given_up()
    }

    fn judge_fc(self, placed: ReplyFC) -> Decided
        ensures { result ≡ judged_fc self placed }
    {
        if placed.offset == self.position.place || placed.offset == 0 {
            return Decided::to(Decision::GoOn, self.onward(placed.offset, 0));
        }
        self.wrong_reply()
    }

    fn judge_fd(self, packet: ReplyState) -> Decided
        requires { AtPacket self }
        ensures { result ≡ judged_fd self packet }
    {
        if state::FD_NOT_RECEIVING < packet.state {
            return self.wrong_reply();
        }
        if packet.state == state::GRANTED {
            let place = self.position.place + self.next_size();
            return Decided::to(Decision::GoOn, self.onward(place, self.position.number + 1));
        }
        self.leg_over()
    }

    fn judge_fe(self, end: ReplyState) -> Decided
        ensures { result ≡ judged_fe self end }
    {
        if state::FE_REFUSED < end.state || end.state == state::FE_NEVER_SENT {
            return self.wrong_reply();
        }
        if end.state == state::GRANTED {
            return Decided::to(Decision::Done, self.moved_to(Phase::Done, 0, 0));
        }
        self.leg_over()
    }

    // What comes after this place: its packet, or the end.
    fn onward(self, place: usize, number: usize) -> Sender
        ensures { result ≡ onward self place number }
    {
        if place < self.offer.length {
            return self.moved_to(Phase::Sending, place, number);
        }
        self.moved_to(Phase::Ending, 0, 0)
    }
}

// From where the image is sent on: what the controller has of it stays only if it is the image's own first bytes.
fn resume_at(told: ReplyFB, image: &[u8]) -> usize
    ensures { result ≡ resume_at told image.now }
{
    if image.len() < told.stored {
        return 0;
    }
    let crc = crc32::checksum(&image[..told.stored]);
    if crc == told.crc { told.stored } else { 0 }
}
