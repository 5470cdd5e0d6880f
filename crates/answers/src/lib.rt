#![tactic(auto)]

// What the console answers: the lines of docs/CONSOLE.md, in parts that are put one behind the other, behind the texts that wait for
// standard output.
//
// - `begun`: the line's number and the command's name.
// - `called`, `portioned`, `framed`, `decided`: what a call gave, and what it did to the memories that it was lent.
// - `changed`, `sender_changed`: what changed in a record, which ends the line; `ended`: the line's end.
ghost use Rattle.text.specs.Outputs.{TextsAdded};
ghost use Rattle.answers.specs.Answers.{begun_texts, count_texts, reading_texts, room_texts, called_texts, portioned_texts, framed_texts};
ghost use Rattle.answers.specs.Answers.{changed_texts, sender_changed_texts, decided_texts, line_end};

use changes::record::record;
use changes::senders::sender;
use controller::call::Called;
use controller::portion::Portioned;
use controller::record::Record;
use sender::decision::Decided;
use sender::sender::Sender;
use sequences::part::front;
use text::output::Output;
use values::hexes::{byte, written};
use values::span::span;
use values::word;

// The line's number, and the name of the command with a space before it.
pub fn begun(output: &mut Output, number: u64, name: &[u8])
    ensures { TextsAdded output.old (begun_texts number name.now) output.new }
{
    output.decimal(number);
    output.text(name);
}

// What feeding or quiet gave, but for what changed in the record. `kept` and `kept_area` are what room and area held before.
pub fn called(
    output: &mut Output,
    c: Called,
    kept: &[u8],
    room: &[u8],
    kept_area: &[u8],
    area: &[u8],
)
    ensures { TextsAdded output.old (called_texts c kept.now room.now kept_area.now area.now) output.new }
{
    reading(output, c);
    in_room(output, b" reply=", c.reply_length, kept, room);
    output.text(b" area=");
    span(output, kept_area, area, 0);
}

// Outcome, counts and frame of a reading.
fn reading(output: &mut Output, c: Called)
    ensures { TextsAdded output.old (reading_texts c) output.new }
{
    output.decimal(u8::from(c.outcome) as u64);
    count(output, b" taken=", c.taken);
    count(output, b" dropped=", c.dropped);
    output.text(b" command=");
    byte(output, c.command);
    count(output, b" length=", c.data_length);
}

// A field with a number.
fn count(output: &mut Output, name: &[u8], n: usize)
    ensures { TextsAdded output.old (count_texts name.now n) output.new }
{
    output.text(name);
    output.decimal(n as u64);
}

// What a portion gave, but for what changed in the record.
pub fn portioned(output: &mut Output, p: Portioned, kept: &[u8], room: &[u8])
    ensures { TextsAdded output.old (portioned_texts p kept.now room.now) output.new }
{
    output.decimal(u8::from(p.outcome) as u64);
    count(output, b" count=", p.count);
    output.text(b" verdict=");
    output.text(word::verdict(p.verdict));
    in_room(output, b" reply=", p.reply_length, kept, room);
}

// What a call gave that writes a frame and changes no record.
pub fn framed(output: &mut Output, outcome: u8, length: usize, kept: &[u8], room: &[u8])
    ensures { TextsAdded output.old (framed_texts outcome length kept.now room.now) output.new }
{
    output.decimal(outcome as u64);
    in_room(output, b" frame=", length, kept, room);
    ended(output);
}

// What was written to the front of the room, and what changed behind that.
fn in_room(output: &mut Output, name: &[u8], length: usize, kept: &[u8], room: &[u8])
    ensures { TextsAdded output.old (room_texts name.now length kept.now room.now) output.new }
{
    output.text(name);
    written(output, front(room, length));
    output.text(b" past=");
    span(output, kept, room, length);
}

// What the sender made of a reply or a silence, but for what changed in its record.
pub fn decided(output: &mut Output, d: Decided)
    ensures { TextsAdded output.old (decided_texts d) output.new }
{
    output.decimal(u8::from(d.outcome) as u64);
    output.text(b" decision=");
    output.text(word::decision(d.decision));
}

// How the controller's record changed, to the line's end.
pub fn changed(output: &mut Output, before: Record, after: Record)
    ensures { TextsAdded output.old (changed_texts before after) output.new }
{
    output.text(b" ");
    record(output, before, after);
    ended(output);
}

// How the sender's changed.
pub fn sender_changed(output: &mut Output, before: Sender, after: Sender)
    ensures { TextsAdded output.old (sender_changed_texts before after) output.new }
{
    output.text(b" ");
    sender(output, before, after);
    ended(output);
}

// The line's end.
pub fn ended(output: &mut Output)
    ensures { TextsAdded output.old line_end output.new }
{
    output.text(b"\n");
}
