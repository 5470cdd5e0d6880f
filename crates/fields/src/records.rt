// A field of the controller's record.
ghost use Rattle.std.specs.Prelude.{◌≡◌};
ghost use Rattle.fields.specs.Fields.{record_set, reader_set, held_set};

use crate::choice::choose;
use crate::sessions;
use controller::record::Record;
use frames::reader::Reader;
use fronts::MAX_FRAME;
use phrases::phrase::{BYTES, Phrase};
use phrases::table;
use sequences::part::front;
use sequences::place;

// With the field that the phrase names as the phrase says. Held bytes that would go past the last place are not taken.
#[tactic(auto, unfolding(crate::specs::Fields::record_set))]
pub fn set(record: Record, phrase: Phrase, bytes: &[u8; BYTES]) -> Record
    ensures { result ≡ record_set phrase bytes.now «record» }
{
    Record {
        reader: reader_set(record.reader, phrase, bytes),
        session: sessions::set(record.session, phrase, bytes),
    }
}

fn reader_set(reader: Reader, phrase: Phrase, bytes: &[u8; BYTES]) -> Reader
    ensures { result ≡ reader_set phrase bytes.now reader }
{
    Reader {
        held: held_set(reader.held, phrase, bytes),
        count: choose(
            phrase.command,
            table::SET_HOLDING,
            phrase.first,
            reader.count,
        ),
    }
}

fn held_set(mut held: [u8; MAX_FRAME], phrase: Phrase, bytes: &[u8; BYTES]) -> [u8; MAX_FRAME]
    ensures { result ≡ held_set phrase bytes.now held }
{
    if phrase.command == table::SET_HELD {
        place::write(&mut held, phrase.first, front(bytes, phrase.count));
    }
    held
}
