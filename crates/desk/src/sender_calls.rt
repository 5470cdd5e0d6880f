// The calls of the sender.
ghost use Rattle.std.specs.Prelude.{◌≡◌, length};
ghost use Rattle.text.specs.Outputs.{TextsAdded};
ghost use Rattle.desk.specs.Telling.{DeskTold};
ghost use Rattle.desk.specs.Obeying.{SentDone};
ghost use Rattle.desk.specs.Effects.{reply_name, silence_name, sender_open_desk, sender_open_texts, request_texts, request_room, Decides};
ghost use Rattle.desk.specs.Effects.{sender_show_texts};
ghost use Rattle.sender.specs.Replies.{after_reply};
ghost use Rattle.sender.specs.Silences.{after_silence};

use crate::desk::{Desk, IMAGE, MEMORY};
use crate::lent;
use fields::offer;
use phrases::phrase::{BYTES, Phrase};
use phrases::table;
use sender::sender::Sender;
use sequences::bounds::smaller;
use sequences::part::front;
use text::output::Output;

impl Desk {
    pub(crate) fn call_sender(
        self,
        number: u64,
        phrase: Phrase,
        bytes: &[u8; BYTES],
        room: &mut [u8; MEMORY],
        image: &[u8; IMAGE],
        kept: &mut [u8; MEMORY],
        output: &mut Output,
    ) -> Desk
        ensures { SentDone self number phrase bytes.now room.old image.now output.old result
            room.new output.new }
    {
        let lent = front(image, self.image);
        match phrase.command {
            table::SENDER_OPEN => self.open_sender(number, phrase.first, bytes, lent, output),
            table::SENDER_REQUEST => {
                self.request(number, lent, room, kept, output);
                self
            }
            table::SENDER_REPLY => {
                let reply = front(bytes, phrase.count);
                self.reply(number, reply, lent, output)
            }
            table::SENDER_SILENCE => self.silence(number, lent, output),
            _ => {
                self.show_sender(number, output);
                self
            }
        }
    }

    fn open_sender(
        self,
        number: u64,
        size: usize,
        bytes: &[u8; BYTES],
        image: &[u8],
        output: &mut Output,
    ) -> Desk
        ensures { DeskTold output.old (sender_open_desk self size bytes.now (length image.now))
            (sender_open_texts self number size bytes.now (length image.now)) result output.new }
    {
        let offer = offer::said(size, bytes, image.len());
        let o = Sender::open(
            offer.channel,
            offer.pid,
            offer.version,
            offer.md5,
            offer.size,
            image,
        );
        answers::begun(output, number, b" sender open ");
        output.decimal(u8::from(o.outcome) as u64);
        self.with_sender(o.sender, output)
    }

    fn request(
        self,
        number: u64,
        image: &[u8],
        room: &mut [u8; MEMORY],
        kept: &mut [u8; MEMORY],
        output: &mut Output,
    )
        ensures tells { TextsAdded output.old (request_texts self number image.now room.old) output.new }
        ensures room_after { room.new ≡ request_room self image.now room.old }
    {
        let n = smaller(self.room, MEMORY);
        lent::keep(room, n, kept);
        let r = lent::request(self.sender, image, room, n);
        answers::begun(output, number, b" sender request ");
        answers::framed(
            output,
            u8::from(r.outcome),
            r.length,
            front(kept, n),
            front(room, n),
        );
    }

    fn reply(self, number: u64, reply: &[u8], image: &[u8], output: &mut Output) -> Desk
        ensures { Decides self number reply_name (after_reply self.sender image.now reply.now) output.old
            result output.new }
    {
        let d = self.sender.reply(image, reply);
        answers::begun(output, number, b" sender reply ");
        answers::decided(output, d);
        self.with_sender(d.next, output)
    }

    fn silence(self, number: u64, image: &[u8], output: &mut Output) -> Desk
        ensures { Decides self number silence_name (after_silence self.sender (length image.now)) output.old
            result output.new }
    {
        let d = self.sender.silence(image);
        answers::begun(output, number, b" sender silence ");
        answers::decided(output, d);
        self.with_sender(d.next, output)
    }

    fn show_sender(self, number: u64, output: &mut Output)
        ensures { TextsAdded output.old (sender_show_texts self number) output.new }
    {
        answers::begun(output, number, b" sender show");
        answers::sender_changed(output, Sender::none(), self.sender);
    }
}
