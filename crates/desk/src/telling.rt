// Lines that no call gives.
ghost use Rattle.text.specs.Outputs.{TextsAdded};
ghost use Rattle.desk.specs.Effects.{line_texts, ok_text, past_text, bad_texts};

use phrases::phrase::Phrase;
use phrases::trouble;
use text::output::Output;

// A line that is no command.
pub(crate) fn bad(output: &mut Output, number: u64, phrase: Phrase)
    ensures { TextsAdded output.old (bad_texts number phrase) output.new }
{
    answers::begun(output, number, b" bad ");
    trouble::tell(output, phrase);
    answers::ended(output);
}

pub(crate) fn ok(output: &mut Output, number: u64)
    ensures { TextsAdded output.old (line_texts number ok_text) output.new }
{
    line(output, number, b" ok");
}

// Bytes that would go past the end of where they belong.
pub(crate) fn past(output: &mut Output, number: u64)
    ensures { TextsAdded output.old (line_texts number past_text) output.new }
{
    line(output, number, b" bad the bytes go past the end");
}

// A line of nothing but its number and a text.
pub(crate) fn line(output: &mut Output, number: u64, text: &[u8])
    ensures { TextsAdded output.old (line_texts number text.now) output.new }
{
    answers::begun(output, number, text);
    answers::ended(output);
}
