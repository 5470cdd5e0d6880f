// Calls on the parts of the memories that are lent.
ghost use Rattle.std.specs.Prelude.{◌≡◌, ◌≤◌, length, take};
ghost use Rattle.controller.specs.Calls.{fed_call, quieted_call};
ghost use Rattle.controller.specs.Portions.{portion_call};
ghost use Rattle.controller.specs.OutwardReport.{reported, room_reported};
ghost use Rattle.sender.specs.Requests.{requested, room_requested};
ghost use Rattle.desk.specs.Lent.{memory_size, left_as, LentCall};

use crate::desk::MEMORY;
use controller::call::Called;
use controller::portion::Portioned;
use controller::record::Record;
use controller::report::Reported;
use sender::request::Requested;
use sender::sender::Sender;
use sequences::part::front;
use sequences::place;

// Keeps the first n bytes of a memory.
pub(crate) fn keep(memory: &[u8; MEMORY], n: usize, kept: &mut [u8; MEMORY])
    requires { n ≤ memory_size }
    ensures { take n kept.new ≡ take n memory.now }
{
    place::write(kept, 0, front(memory, n));
}

pub(crate) fn feed(
    record: Record,
    fed: &[u8],
    room: &mut [u8],
    n: usize,
    area: &mut [u8],
    m: usize,
) -> Called
    requires n_in_bounds { n ≤ length room.old }
    requires m_in_bounds { m ≤ length area.old }
    ensures { LentCall (fed_call fed.now «record» (take n room.old) (take m area.old)) result
        n room.old room.new m area.old area.new }
{
    record.feed(fed, &mut room[..n], &mut area[..m])
}

pub(crate) fn quiet(record: Record, room: &mut [u8], n: usize, area: &mut [u8], m: usize) -> Called
    requires n_in_bounds { n ≤ length room.old }
    requires m_in_bounds { m ≤ length area.old }
    ensures { LentCall (quieted_call «record» (take n room.old) (take m area.old)) result
        n room.old room.new m area.old area.new }
{
    record.quiet(&mut room[..n], &mut area[..m])
}

pub(crate) fn portion(
    record: Record,
    most: usize,
    room: &mut [u8],
    n: usize,
    area: &[u8],
) -> Portioned
    requires { n ≤ length room.old }
    ensures value { result ≡ (portion_call most «record» (take n room.old) area.now).called }
    ensures room_after { room.new ≡ left_as (portion_call most «record» (take n room.old) area.now).room n room.old }
{
    record.portion(most, &mut room[..n], area)
}

pub(crate) fn report(record: Record, room: &mut [u8], n: usize) -> Reported
    requires { n ≤ length room.old }
    ensures value { result ≡ reported «record» (take n room.old) }
    ensures room_after { room.new ≡ left_as (room_reported «record» (take n room.old)) n room.old }
{
    record.report(&mut room[..n])
}

pub(crate) fn request(sender: Sender, image: &[u8], room: &mut [u8], n: usize) -> Requested
    requires { n ≤ length room.old }
    ensures value { result ≡ requested «sender» image.now (take n room.old) }
    ensures room_after { room.new ≡ left_as (room_requested «sender» image.now (take n room.old)) n room.old }
{
    sender.request(image, &mut room[..n])
}
