// A board as a phrase says it: permit, then channel(1), soft version(3), hard version(3), PID(8).
ghost use Rattle.std.specs.Prelude.{◌≡◌};
ghost use Rattle.fields.specs.Fields.{board_said, placed};

use crate::choice::bytes_at;
use boards::board::Board;
use boards::list::MAX_BOARDS;
use phrases::phrase::BYTES;

pub fn said(permit: usize, bytes: &[u8; BYTES]) -> Board
    ensures { result ≡ board_said permit bytes.now }
{
    Board {
        channel: bytes[0],
        soft: bytes_at(1, bytes),
        hard: bytes_at(4, bytes),
        pid: bytes_at(7, bytes),
        permit: permit != 0,
    }
}

// With a board at this place; a list has ten.
pub fn placed(mut boards: [Board; MAX_BOARDS], place: usize, board: Board) -> [Board; MAX_BOARDS]
    ensures { result ≡ placed boards place board }
{
    if place < MAX_BOARDS {
        boards[place] = board;
    }
    boards
}
