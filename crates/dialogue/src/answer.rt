// The controller's reply.
ghost use Rattle.carrier.specs.Sending.{CarriesOn};
ghost use Rattle.dialogue.specs.Turns.{answering};

use carrier::carrier::Carrier;
use controller::call::MIN_ROOM;
use link::link::MEMORY;
use text::output::Output;

// It is sent, if there is one: the first `length` bytes of the room.
pub(crate) fn answer(
    carrier: Carrier,
    room: [u8; MIN_ROOM],
    length: usize,
    letters: &[u8],
    memory: &mut [u8; MEMORY],
    output: &mut Output,
) -> Carrier
    ensures { CarriesOn (answering carrier.link carrier.script memory.old room length letters.now)
        output.old result memory.new output.new }
{
    if length == 0 {
        return carrier;
    }
    carrier.send(ends::reply(room, length), letters, memory, output)
}
