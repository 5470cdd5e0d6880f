// CHANGES of the controller's record.
ghost use Rattle.text.specs.Outputs.{TextsAdded};
ghost use Rattle.changes.specs.RecordChanges.{opening_fields, reader_fields, leg_fields, identity_fields, check_fields};
ghost use Rattle.changes.specs.RecordChanges.{transfer_fields, record_texts};

use crate::list;
use controller::record::Record;
use frames::reader::Reader;
use image::check::Check;
use session::session::Session;
use text::output::Output;
use transfer::identity::Identity;
use transfer::state::{Leg, Transfer};
use values::{field, word};

pub fn record(output: &mut Output, before: Record, after: Record)
    ensures { TextsAdded output.old (record_texts before after) output.new }
{
    output.text(b"|");
    opening(output, before.session, after.session);
    reader(output, before.reader, after.reader);
    transfer(output, before.session.transfer, after.session.transfer);
}

// What opening sets: the board list and the opened length.
fn opening(output: &mut Output, before: Session, after: Session)
    ensures { TextsAdded output.old (opening_fields before after) output.new }
{
    field::number(output, b" boards=", before.count, after.count);
    list::boards(output, before.boards, after.boards);
    field::number(output, b" opened=", before.opened, after.opened);
}

fn reader(output: &mut Output, before: Reader, after: Reader)
    ensures { TextsAdded output.old (reader_fields before after) output.new }
{
    field::number(output, b" holding=", before.count, after.count);
    field::held(output, &before.held, &after.held);
}

fn transfer(output: &mut Output, before: Transfer, after: Transfer)
    ensures { TextsAdded output.old (transfer_fields before after) output.new }
{
    leg(output, before.leg, after.leg);
    field::number(
        output,
        b" stored=",
        before.progress.stored,
        after.progress.stored,
    );
    identity(output, before.image, after.image);
    field::number(output, b" last=", before.progress.last, after.progress.last);
    check(output, before.check, after.check);
}

fn leg(output: &mut Output, before: Leg, after: Leg)
    ensures { TextsAdded output.old (leg_fields before after) output.new }
{
    field::phase(output, word::phase(before.phase), word::phase(after.phase));
    field::channel(output, b" channel=", before.channel, after.channel);
    field::number(output, b" agreed=", before.agreed, after.agreed);
    field::number(output, b" next=", before.next, after.next);
}

fn identity(output: &mut Output, before: Identity, after: Identity)
    ensures { TextsAdded output.old (identity_fields before after) output.new }
{
    field::channel(output, b" image-channel=", before.channel, after.channel);
    field::bytes(output, b" version=", &before.version, &after.version);
    field::number(output, b" announced=", before.announced, after.announced);
    field::bytes(output, b" md5=", &before.md5, &after.md5);
    field::four_bytes(output, b" crc=", before.crc, after.crc);
}

fn check(output: &mut Output, before: Check, after: Check)
    ensures { TextsAdded output.old (check_fields before after) output.new }
{
    let was = field::bit(before.running);
    let is = field::bit(after.running);
    field::number(output, b" checking=", was, is);
    field::number(output, b" read=", before.read, after.read);
    field::four_bytes(output, b" register=", before.register, after.register);
}
