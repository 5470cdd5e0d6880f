// One field of a record: its name and the value now, or nothing where that is the value before. A name is given with the space before it
// and the `=` behind it.
ghost use Rattle.std.specs.Prelude.{◌≡◌};
ghost use Rattle.text.specs.Outputs.{TextsAdded};
ghost use Rattle.values.specs.Fields.{bit_of, number_field, phase_field, bytes_field, four_bytes_field, held_field};

use crate::hexes::digits;
use crate::span::span;
use fronts::MAX_FRAME;
use sequences::compare::same;
use sequences::number::bytes32;
use text::output::Output;

pub fn number(output: &mut Output, name: &[u8], before: usize, after: usize)
    ensures { TextsAdded output.old (number_field name.now before after) output.new }
{
    if before != after {
        output.text(name);
        output.decimal(after as u64);
    }
}

pub fn channel(output: &mut Output, name: &[u8], before: u8, after: u8)
    ensures { TextsAdded output.old (number_field name.now before after) output.new }
{
    number(output, name, before as usize, after as usize);
}

// A truth as a number, 0 or 1.
pub fn bit(is_true: bool) -> usize
    ensures { result ≡ bit_of is_true }
{
    is_true as usize
}

// A phase of either end, by its name.
pub fn phase(output: &mut Output, before: &[u8], after: &[u8])
    ensures { TextsAdded output.old (phase_field before.now after.now) output.new }
{
    if !same(before, after) {
        output.text(b" phase=");
        output.text(after);
    }
}

pub fn bytes(output: &mut Output, name: &[u8], before: &[u8], after: &[u8])
    ensures { TextsAdded output.old (bytes_field name.now before.now after.now) output.new }
{
    if !same(before, after) {
        output.text(name);
        digits(output, after);
    }
}

pub fn four_bytes(output: &mut Output, name: &[u8], before: u32, after: u32)
    ensures { TextsAdded output.old (four_bytes_field name.now before after) output.new }
{
    if before != after {
        output.text(name);
        digits(output, &bytes32(after as usize));
    }
}

// As SPAN, over all places.
pub fn held(output: &mut Output, before: &[u8; MAX_FRAME], after: &[u8; MAX_FRAME])
    ensures { TextsAdded output.old (held_field before.now after.now) output.new }
{
    if !same(before, after) {
        output.text(b" held=");
        span(output, before, after, 0);
    }
}
