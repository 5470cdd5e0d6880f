// The text that says what is the trouble with a line.
ghost use Rattle.std.specs.Prelude.{[], ◌∷◌};
ghost use Rattle.text.specs.Ascii.{ascii};
ghost use Rattle.text.specs.Decimals.{decimal};
ghost use Rattle.text.specs.Outputs.{TextsAdded};
ghost use Rattle.phrases.specs.Messages.{trouble_texts};

use crate::phrase::{Phrase, Trouble};
use crate::rows::row_at;
use text::output::Output;

// Adds the message of docs/CONSOLE.md, without the line's number, `bad` and the newline; nothing where there is no trouble.
pub fn tell(output: &mut Output, phrase: Phrase)
    ensures { TextsAdded output.old (trouble_texts phrase) output.new }
{
    let row = row_at(phrase.command);
    match phrase.trouble {
        Trouble::Fine => {}
        Trouble::Unknown => output.text(b"no such command"),
        Trouble::FirstNumber => number(output, b"number 1 is 0 to ", row.first),
        Trouble::SecondNumber => number(output, b"number 2 is 0 to ", row.second),
        Trouble::More => output.text(b"nothing is expected behind that"),
        Trouble::Digits => output.text(b"bytes are pairs of hexadecimal digits"),
        Trouble::Count => count(output, row.bytes),
    }
}

fn number(output: &mut Output, range: &[u8], most: usize)
    ensures { TextsAdded output.old (range.now ∷ decimal most ∷ []) output.new }
{
    output.text(range);
    output.decimal(most as u64);
}

fn count(output: &mut Output, expected: usize)
    ensures { TextsAdded output.old (decimal expected ∷ ascii " bytes are expected" ∷ []) output.new }
{
    output.decimal(expected as u64);
    output.text(b" bytes are expected");
}
