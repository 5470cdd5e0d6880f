// The calls of the controller.
ghost use Rattle.std.specs.Prelude.{◌≡◌, take};
ghost use Rattle.text.specs.Outputs.{TextsAdded};
ghost use Rattle.desk.specs.Desks.{with_record};
ghost use Rattle.desk.specs.Telling.{DeskTold};
ghost use Rattle.desk.specs.Obeying.{WatchDone, ControlDone};
ghost use Rattle.desk.specs.Effects.{feed_name, quiet_name, fed_lent, quieted_lent, portion_lent, open_texts, open_desk, call_texts};
ghost use Rattle.desk.specs.Effects.{CallDone, PortionDone, report_texts, report_room, show_texts};

use crate::desk::{Desk, MEMORY, no_record};
use crate::lent;
use controller::call::Called;
use controller::record::Record;
use phrases::phrase::{BYTES, Phrase};
use phrases::table;
use sequences::bounds::smaller;
use sequences::part::front;
use text::output::Output;

impl Desk {
    pub(crate) fn call(
        self,
        number: u64,
        phrase: Phrase,
        bytes: &[u8; BYTES],
        room: &mut [u8; MEMORY],
        area: &mut [u8; MEMORY],
        kept: &mut [u8; MEMORY],
        kept_area: &mut [u8; MEMORY],
        output: &mut Output,
    ) -> Desk
        ensures { ControlDone self number phrase bytes.now room.old area.old output.old result
            room.new area.new output.new }
    {
        match phrase.command {
            table::OPEN => self.open(number, phrase, output),
            table::FEED => {
                let fed = front(bytes, phrase.count);
                self.feed(number, fed, room, area, kept, kept_area, output)
            }
            table::QUIET => self.quiet(number, room, area, kept, kept_area, output),
            _ => self.watch(number, phrase, bytes, room, area, kept, output),
        }
    }

    // Portions of the end check, the outward F9, and a look at the record.
    fn watch(
        self,
        number: u64,
        phrase: Phrase,
        bytes: &[u8; BYTES],
        room: &mut [u8; MEMORY],
        area: &[u8; MEMORY],
        kept: &mut [u8; MEMORY],
        output: &mut Output,
    ) -> Desk
        ensures { WatchDone self number phrase bytes.now room.old area.now output.old result
            room.new output.new }
    {
        match phrase.command {
            table::PORTION => self.portion(number, phrase.first, room, area, kept, output),
            table::REPORT => {
                self.report(number, room, kept, output);
                self
            }
            _ => {
                self.show(number, output);
                self
            }
        }
    }

    fn open(self, number: u64, phrase: Phrase, output: &mut Output) -> Desk
        ensures { DeskTold output.old (open_desk self phrase) (open_texts self number phrase) result output.new }
    {
        let o = Record::open(self.list, phrase.first, phrase.second);
        answers::begun(output, number, b" open ");
        output.decimal(u8::from(o.outcome) as u64);
        self.with_record(o.next, output)
    }

    fn feed(
        self,
        number: u64,
        fed: &[u8],
        room: &mut [u8; MEMORY],
        area: &mut [u8; MEMORY],
        kept: &mut [u8; MEMORY],
        kept_area: &mut [u8; MEMORY],
        output: &mut Output,
    ) -> Desk
        ensures { CallDone self number feed_name (fed_lent self fed.now room.old area.old)
            room.old area.old output.old result room.new area.new output.new }
    {
        let n = smaller(self.room, MEMORY);
        let m = smaller(self.area, MEMORY);
        lent::keep(room, n, kept);
        lent::keep(area, m, kept_area);
        let c = lent::feed(self.record, fed, room, n, area, m);
        self.called(
            number, b" feed ", c, n, m, kept, room, kept_area, area, output,
        )
    }

    fn quiet(
        self,
        number: u64,
        room: &mut [u8; MEMORY],
        area: &mut [u8; MEMORY],
        kept: &mut [u8; MEMORY],
        kept_area: &mut [u8; MEMORY],
        output: &mut Output,
    ) -> Desk
        ensures { CallDone self number quiet_name (quieted_lent self room.old area.old)
            room.old area.old output.old result room.new area.new output.new }
    {
        let n = smaller(self.room, MEMORY);
        let m = smaller(self.area, MEMORY);
        lent::keep(room, n, kept);
        lent::keep(area, m, kept_area);
        let c = lent::quiet(self.record, room, n, area, m);
        self.called(
            number, b" quiet ", c, n, m, kept, room, kept_area, area, output,
        )
    }

    // What feeding or quiet gave and left of the first n bytes of the room and the first m of the area.
    fn called(
        self,
        number: u64,
        name: &[u8],
        c: Called,
        n: usize,
        m: usize,
        kept: &[u8; MEMORY],
        room: &[u8; MEMORY],
        kept_area: &[u8; MEMORY],
        area: &[u8; MEMORY],
        output: &mut Output,
    ) -> Desk
        ensures { DeskTold output.old (with_record self c.next)
            (call_texts self number name.now c (take n kept.now) (take n room.now)
            (take m kept_area.now) (take m area.now))
            result output.new }
    {
        answers::begun(output, number, name);
        answers::called(
            output,
            c,
            front(kept, n),
            front(room, n),
            front(kept_area, m),
            front(area, m),
        );
        self.with_record(c.next, output)
    }

    fn portion(
        self,
        number: u64,
        most: usize,
        room: &mut [u8; MEMORY],
        area: &[u8; MEMORY],
        kept: &mut [u8; MEMORY],
        output: &mut Output,
    ) -> Desk
        ensures { PortionDone self number (portion_lent self most room.old area.now) room.old
            output.old result room.new output.new }
    {
        let n = smaller(self.room, MEMORY);
        lent::keep(room, n, kept);
        let p = lent::portion(self.record, most, room, n, front(area, self.area));
        answers::begun(output, number, b" portion ");
        answers::portioned(output, p, front(kept, n), front(room, n));
        self.with_record(p.next, output)
    }

    fn report(
        self,
        number: u64,
        room: &mut [u8; MEMORY],
        kept: &mut [u8; MEMORY],
        output: &mut Output,
    )
        ensures tells { TextsAdded output.old (report_texts self number room.old) output.new }
        ensures room_after { room.new ≡ report_room self room.old }
    {
        let n = smaller(self.room, MEMORY);
        lent::keep(room, n, kept);
        let r = lent::report(self.record, room, n);
        answers::begun(output, number, b" report ");
        answers::framed(
            output,
            u8::from(r.outcome),
            r.length,
            front(kept, n),
            front(room, n),
        );
    }

    // Nothing is done: the record is told as it differs from the all-zero one.
    fn show(self, number: u64, output: &mut Output)
        ensures { TextsAdded output.old (show_texts self number) output.new }
    {
        answers::begun(output, number, b" show");
        answers::changed(output, no_record(), self.record);
    }
}
