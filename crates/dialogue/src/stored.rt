// What the controller has stored.
ghost use Rattle.std.specs.Prelude.{◌≡◌};
ghost use Rattle.text.specs.Outputs.{TextsAdded};
ghost use Rattle.dialogue.specs.Turns.{stored_length, stored_change};

use bench::AREA;
use controller::record::Record;
use sequences::part::{begins, front};
use text::output::Output;

// A stored length that a call has changed gets a line.
pub(crate) fn tell(
    output: &mut Output,
    before: Record,
    next: Record,
    image: &[u8],
    area: &[u8; AREA],
)
    ensures { TextsAdded output.old (stored_change before next image.now area.now) output.new }
{
    let n = length(next);
    if n != length(before) {
        let is_same = begins(image, front(area, n));
        transcript::stored(output, n, image.len(), is_same);
    }
}

pub(crate) fn length(record: Record) -> usize
    ensures { result ≡ stored_length «record» }
{
    record.session.transfer.progress.stored
}
