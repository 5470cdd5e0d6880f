// SPAN: the changed bytes from the first to the last, as they stand now.
ghost use Rattle.std.specs.Prelude.{◌≡◌, ◌≤◌, length};
ghost use Rattle.text.specs.Outputs.{TextsAdded};
ghost use Rattle.values.specs.Spans.{changed_at, first_changed, behind_last, span_texts};

use crate::hexes::digits;
use sequences::bounds::{larger, smaller};
use sequences::part::between;
use text::output::Output;

// Looks at the places from `from` on that both have.
pub fn span(output: &mut Output, before: &[u8], after: &[u8], from: usize)
    ensures { TextsAdded output.old (span_texts before.now after.now from) output.new }
{
    let end = smaller(before.len(), after.len());
    let first = first_changed(before, after, from, end);
    if first < end {
        let to = behind_last(before, after, end);
        output.decimal(first as u64);
        output.text(b":");
        digits(output, between(after, first, to));
    } else {
        output.text(b"-");
    }
}

// The first place from `from` on whose byte has changed; else `end`, or `from` where that is no smaller.
fn first_changed(before: &[u8], after: &[u8], from: usize, end: usize) -> usize
    requires { (end ≤ length before.now) × (end ≤ length after.now) }
    ensures { result ≡ first_changed before.now after.now from end }
{
    for i in from..end {
        if before[i] != after[i] {
            return i;
        }
    }
    larger(from, end)
}

// The place behind the last one before `end` whose byte has changed; 0 where none has.
fn behind_last(before: &[u8], after: &[u8], end: usize) -> usize
    requires { (end ≤ length before.now) × (end ≤ length after.now) }
    ensures { result ≡ behind_last (changed_at before.now after.now) end }
{
    for last in (0..end).rev() {
        if before[last] != after[last] {
            return last + 1;
        }
    }
    0
}
