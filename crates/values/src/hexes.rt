// Bytes in hexadecimal, put a byte at a time: there is no bound on their number.
ghost use Rattle.text.specs.Hex.{hex_byte};
ghost use Rattle.text.specs.Outputs.{TextAdded, TextsAdded};
ghost use Rattle.values.specs.Bytes.{digit_texts, bytes_texts};

use text::hex;
use text::output::Output;

pub fn digits(output: &mut Output, bytes: &[u8])
    ensures { TextsAdded output.old (digit_texts bytes.now) output.new }
{
    for b in bytes {
        byte(output, *b);
    }
}

// BYTES.
pub fn written(output: &mut Output, bytes: &[u8])
    ensures { TextsAdded output.old (bytes_texts bytes.now) output.new }
{
    if bytes.is_empty() {
        output.text(b"-");
    } else {
        digits(output, bytes);
    }
}

pub fn byte(output: &mut Output, b: u8)
    ensures { TextAdded output.old (hex_byte b) output.new }
{
    output.text(&hex::byte(b));
}
