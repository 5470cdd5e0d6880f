#![tactic(auto)]

// The bench's controller, as its programs open and run it (01, "Frames from the bench").
//
// - `open`: the fresh record of the bench's one board; `open_on`: of that board on another channel.
// - `AREA`: the length of the area that every call on that record lends.
// - `PORTION`: the most bytes of the image that a turn of a program reads back for an end check.
ghost use Rattle.std.specs.Prelude.{◌≡◌};
ghost use Rattle.controller.specs.Bench.{fresh};
ghost use Rattle.bench.specs.Boards.{Opens};

use boards::board::Board;
use boards::list::MAX_BOARDS;
use controller::record::Record;

// As `io::large_buffer` gives.
pub const AREA: usize = 65536;

pub const PORTION: usize = 8192;

// The board's channel where nothing else is asked for.
pub const CHANNEL: u8 = 10;

pub fn open() -> Record
    ensures { result ≡ fresh }
{
    open_on(CHANNEL)
}

// Opening refuses no channel from 10 to 19.
pub fn open_on(channel: u8) -> Record
    ensures { Opens channel result }
{
    let none = Board {
        channel: 0,
        soft: [0; 3],
        hard: [0; 3],
        pid: [0; 8],
        permit: false,
    };
    let mut boards = [none; MAX_BOARDS];
    boards[0] = Board {
        channel,
        soft: [1, 0, 2],
        hard: [1, 0, 0],
        permit: true,
        ..none
    };
    Record::open(boards, 1, AREA).next
}
