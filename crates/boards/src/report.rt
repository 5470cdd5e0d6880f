// The outward F9: the list as the module is told it.
ghost use Rattle.std.specs.Prelude.{◌≡◌, ◌+◌, ◌*◌, ◌≤◌};
ghost use Rattle.sequences.specs.Padding.{padded};
ghost use Rattle.sequences.specs.Places.{written_at};
ghost use Rattle.boards.specs.Boards.{max_boards};
ghost use Rattle.boards.specs.Report.{board_bytes, report_bytes, max_report, ReportWritten};

use crate::board::Board;
use crate::list;
use commands::table;
use frames::writer;
use fronts::OVERHEAD;
use sequences::place;

// A board's channel, soft version and hard version.
pub const BOARD_SIZE: usize = 7;

// What a report has besides its boards: a frame's own bytes, and the count.
pub const REPORT_OVERHEAD: usize = OVERHEAD + 1;

// The count, and ten boards.
const MAX_REPORT: usize = 1 + BOARD_SIZE * list::MAX_BOARDS;

// Writes the report of the first `count` boards to the front of room and gives its size; 0, and nothing written, where the room is too
// short for it or there are more than ten. It is no call on a record and gives no outcome: a record is judged by who has one.
pub fn write(boards: [Board; list::MAX_BOARDS], count: usize, room: &mut [u8]) -> usize
    ensures { ReportWritten boards count room.old result room.new }
{
    if list::MAX_BOARDS < count {
        return 0;
    }
    let row = table::row_of(table::F9);
    let d = report_data(boards, count);
    let n = 1 + BOARD_SIZE * count;
    writer::write(row.version, table::F9, &d[..n], room)
}

fn report_data(boards: [Board; list::MAX_BOARDS], count: usize) -> [u8; MAX_REPORT]
    requires { count ≤ max_boards }
    ensures { result ≡ padded max_report (report_bytes boards count) }
{
    let mut d = [0u8; MAX_REPORT];
    d[0] = count as u8;
    for (i, &board) in boards[..count].iter().enumerate() {
        d = with_board(d, 1 + BOARD_SIZE * i, board);
    }
    d
}

fn with_board(mut d: [u8; MAX_REPORT], at: usize, board: Board) -> [u8; MAX_REPORT]
    ensures { result ≡ written_at d at (board_bytes board) }
{
    place::write(&mut d, at, &board_bytes(board));
    d
}

fn board_bytes(board: Board) -> [u8; BOARD_SIZE]
    ensures { result ≡ board_bytes board }
{
    let Board {
        channel,
        soft,
        hard,
        ..
    } = board;
    [
        channel, soft[0], soft[1], soft[2], hard[0], hard[1], hard[2],
    ]
}
