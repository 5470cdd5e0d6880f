// CHANGES of the sender's record.
ghost use Rattle.text.specs.Outputs.{TextsAdded};
ghost use Rattle.changes.specs.SenderChanges.{offer_fields, position_fields, tries_fields, sender_texts};

use sender::sender::{Offer, Position, Sender, Tries};
use text::output::Output;
use values::{field, word};

pub fn sender(output: &mut Output, before: Sender, after: Sender)
    ensures { TextsAdded output.old (sender_texts before after) output.new }
{
    output.text(b"|");
    offer(output, before.offer, after.offer);
    position(output, before.position, after.position);
    tries(output, before.tries, after.tries);
}

fn offer(output: &mut Output, before: Offer, after: Offer)
    ensures { TextsAdded output.old (offer_fields before after) output.new }
{
    field::channel(output, b" channel=", before.channel, after.channel);
    field::bytes(output, b" pid=", &before.pid, &after.pid);
    field::bytes(output, b" version=", &before.version, &after.version);
    field::bytes(output, b" md5=", &before.md5, &after.md5);
    field::number(output, b" size=", before.size as usize, after.size as usize);
    field::number(output, b" length=", before.length, after.length);
}

fn position(output: &mut Output, before: Position, after: Position)
    ensures { TextsAdded output.old (position_fields before after) output.new }
{
    field::phase(
        output,
        word::sender_phase(before.phase),
        word::sender_phase(after.phase),
    );
    field::number(output, b" place=", before.place, after.place);
    field::number(output, b" number=", before.number, after.number);
}

fn tries(output: &mut Output, before: Tries, after: Tries)
    ensures { TextsAdded output.old (tries_fields before after) output.new }
{
    field::number(output, b" silences=", before.silences, after.silences);
    field::number(output, b" legs=", before.new_legs, after.new_legs);
}
