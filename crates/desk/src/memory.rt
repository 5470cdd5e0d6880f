// The memories, how much of them is lent, and the list of boards.
ghost use Rattle.std.specs.Prelude.{◌≡◌};
ghost use Rattle.sequences.specs.Places.{written_at};
ghost use Rattle.text.specs.Outputs.{TextsAdded};
ghost use Rattle.desk.specs.Obeying.{remembered, Done};
ghost use Rattle.desk.specs.Effects.{is_past, write_texts, lent, boarded};

use crate::desk::Desk;
use crate::telling::{ok, past};
use fields::board;
use fields::choice::choose;
use phrases::phrase::{BYTES, Phrase};
use phrases::table;
use sequences::part::front;
use sequences::place;
use text::output::Output;

impl Desk {
    // A memory is written to or lent otherwise, or a board goes to the list.
    pub(crate) fn remember(
        self,
        number: u64,
        phrase: Phrase,
        bytes: &[u8; BYTES],
        room: &mut [u8],
        area: &mut [u8],
        image: &mut [u8],
        output: &mut Output,
    ) -> Desk
        ensures { Done (remembered self number phrase bytes.now room.old area.old image.old) output.old
            result room.new area.new image.new output.new }
    {
        let new = front(bytes, phrase.count);
        match phrase.command {
            table::WRITE_ROOM => {
                write(output, number, phrase.first, new, room);
                self
            }
            table::WRITE_AREA => {
                write(output, number, phrase.first, new, area);
                self
            }
            table::WRITE_IMAGE => {
                write(output, number, phrase.first, new, image);
                self
            }
            table::BOARD => {
                ok(output, number);
                self.with_board(phrase, bytes)
            }
            _ => {
                ok(output, number);
                self.lending(phrase.command, phrase.first)
            }
        }
    }

    // So much of a memory is lent from now on.
    fn lending(mut self, command: usize, n: usize) -> Desk
        ensures { result ≡ lent self command n }
    {
        self.room = choose(command, table::ROOM, n, self.room);
        self.area = choose(command, table::AREA, n, self.area);
        self.image = choose(command, table::IMAGE, n, self.image);
        self
    }

    fn with_board(mut self, phrase: Phrase, bytes: &[u8; BYTES]) -> Desk
        ensures { result ≡ boarded self phrase bytes.now }
    {
        let board = board::said(phrase.second, bytes);
        self.list = board::placed(self.list, phrase.first, board);
        self
    }
}

// Puts the bytes into a memory.
fn write(output: &mut Output, number: u64, at: usize, new: &[u8], memory: &mut [u8])
    ensures tells { TextsAdded output.old (write_texts number at new.now memory.old) output.new }
    ensures memory_after { memory.new ≡ written_at memory.old at new.now }
{
    if is_past(memory.len(), at, new.len()) {
        past(output, number);
        return;
    }
    place::write(memory, at, new);
    ok(output, number);
}

// Whether n bytes from this place on go past the end of so many.
pub(crate) fn is_past(length: usize, at: usize, n: usize) -> bool
    ensures { result ≡ is_past length at n }
{
    length < n || length - n < at
}
