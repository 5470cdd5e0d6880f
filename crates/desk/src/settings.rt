// Fields set by hand.
ghost use Rattle.std.specs.Prelude.{◌≡◌};
ghost use Rattle.desk.specs.Telling.{DeskTold};
ghost use Rattle.desk.specs.Effects.{is_past_held, set_desk, set_texts, sender_set_desk, sender_set_texts};

use crate::desk::Desk;
use crate::memory::is_past;
use crate::telling::past;
use fields::{records, senders};
use fronts::MAX_FRAME;
use phrases::phrase::{BYTES, Phrase};
use phrases::table;
use text::output::Output;

impl Desk {
    pub(crate) fn set(
        self,
        number: u64,
        phrase: Phrase,
        bytes: &[u8; BYTES],
        output: &mut Output,
    ) -> Desk
        ensures { DeskTold output.old (set_desk self phrase bytes.now) (set_texts self number phrase bytes.now)
            result output.new }
    {
        if is_past_held(phrase) {
            past(output, number);
            return self;
        }
        let after = records::set(self.record, phrase, bytes);
        answers::begun(output, number, b" set");
        self.with_record(after, output)
    }

    pub(crate) fn set_sender(
        self,
        number: u64,
        phrase: Phrase,
        bytes: &[u8; BYTES],
        output: &mut Output,
    ) -> Desk
        ensures { DeskTold output.old (sender_set_desk self phrase bytes.now)
            (sender_set_texts self number phrase bytes.now) result output.new }
    {
        let after = senders::set(self.sender, phrase, bytes);
        answers::begun(output, number, b" sender set");
        self.with_sender(after, output)
    }
}

// Held bytes that go past the last of their places.
fn is_past_held(phrase: Phrase) -> bool
    ensures { result ≡ is_past_held phrase }
{
    phrase.command == table::SET_HELD && is_past(MAX_FRAME, phrase.first, phrase.count)
}
