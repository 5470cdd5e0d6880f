// What is kept from command to command.
ghost use Rattle.std.specs.Prelude.{◌≡◌};
ghost use Rattle.controller.specs.Records.{no_record};
ghost use Rattle.desk.specs.Desks.{empty_desk, is_bad, with_record, with_sender};
ghost use Rattle.desk.specs.Telling.{DeskTold};
ghost use Rattle.desk.specs.Obeying.{obeyed, Done};
ghost use Rattle.answers.specs.Answers.{changed_texts, sender_changed_texts};

use crate::telling::bad;
use boards::board::Board;
use boards::list;
use boards::list::MAX_BOARDS;
use controller::record::Record;
use frames::reader::Reader;
use fronts::MAX_FRAME;
use phrases::phrase::{BYTES, Phrase, Trouble};
use phrases::table;
use sender::sender::Sender;
use session::session::Session;
use text::output::Output;

// The length of the room's and of the area's memory: as `io::large_buffer` gives.
pub const MEMORY: usize = 65536;

// The image's: a byte more than the longest area.
pub const IMAGE: usize = 1048577;

#[derive(Clone, Copy)]
pub struct Desk {
    // The boards to open the record with.
    pub list: [Board; MAX_BOARDS],
    pub record: Record,
    pub sender: Sender,
    // How many bytes of each memory are lent.
    pub room: usize,
    pub area: usize,
    pub image: usize,
}

impl Desk {
    pub fn empty() -> Desk
        ensures { result ≡ empty_desk }
    {
        Desk {
            list: [list::no_board(); MAX_BOARDS],
            record: no_record(),
            sender: Sender::none(),
            room: MEMORY,
            area: MEMORY,
            image: 0,
        }
    }

    // What the phrase of a line says is done and told. Its bytes stand at the front of `bytes`; `kept` and `kept_area` are for what room
    // and area held before.
    pub fn obey(
        self,
        number: u64,
        phrase: Phrase,
        bytes: &[u8; BYTES],
        room: &mut [u8; MEMORY],
        area: &mut [u8; MEMORY],
        image: &mut [u8; IMAGE],
        kept: &mut [u8; MEMORY],
        kept_area: &mut [u8; MEMORY],
        output: &mut Output,
    ) -> Desk
        ensures { Done (obeyed self number phrase bytes.now room.old area.old image.old) output.old
            result room.new area.new image.new output.new }
    {
        if is_bad(phrase) {
            bad(output, number, phrase);
            return self;
        }
        match phrase.command {
            0..table::OPEN => self.remember(number, phrase, bytes, room, area, image, output),
            table::OPEN..table::SET_BOARDS => {
                self.call(number, phrase, bytes, room, area, kept, kept_area, output)
            }
            table::SET_BOARDS..table::SENDER_OPEN => self.set(number, phrase, bytes, output),
            table::SENDER_OPEN..table::SENDER_SET_CHANNEL => {
                self.call_sender(number, phrase, bytes, room, image, kept, output)
            }
            _ => self.set_sender(number, phrase, bytes, output),
        }
    }

    // With another record; how it differs ends the line.
    pub(crate) fn with_record(mut self, after: Record, output: &mut Output) -> Desk
        ensures { DeskTold output.old (with_record self after) (changed_texts self.record after) result output.new }
    {
        answers::changed(output, self.record, after);
        self.record = after;
        self
    }

    // With another record of the sender.
    pub(crate) fn with_sender(mut self, after: Sender, output: &mut Output) -> Desk
        ensures { DeskTold output.old (with_sender self after) (sender_changed_texts self.sender after) result output.new }
    {
        answers::sender_changed(output, self.sender, after);
        self.sender = after;
        self
    }
}

// The all-zero record, which no call accepts.
pub(crate) fn no_record() -> Record
    ensures { result ≡ no_record }
{
    Record {
        reader: Reader {
            held: [0; MAX_FRAME],
            count: 0,
        },
        session: Session::none(),
    }
}

fn is_bad(phrase: Phrase) -> bool
    ensures { result ≡ is_bad phrase.trouble }
{
    !matches!(phrase.trouble, Trouble::Fine)
}
