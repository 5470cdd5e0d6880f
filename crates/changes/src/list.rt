// The board list.
ghost use Rattle.std.specs.Prelude.{◌≡◌};
ghost use Rattle.boards.specs.Boards.{max_boards};
ghost use Rattle.text.specs.Outputs.{TextsAdded};
ghost use Rattle.changes.specs.BoardLists.{same_board, version_texts, board_texts, board_field, board_fields};

use boards::board::Board;
use boards::list::{MAX_BOARDS, board_at};
use text::output::Output;
use values::field::bit;
use values::hexes::{byte, digits};

// Each board that is another than before.
pub fn boards(output: &mut Output, before: [Board; MAX_BOARDS], after: [Board; MAX_BOARDS])
    ensures { TextsAdded output.old (board_fields before after max_boards) output.new }
{
    for i in 0..MAX_BOARDS {
        place(output, i, board_at(before, i), board_at(after, i));
    }
}

// The board at place i.
fn place(output: &mut Output, i: usize, before: Board, after: Board)
    ensures { TextsAdded output.old (board_field i before after) output.new }
{
    if !same_board(before, after) {
        output.text(b" board");
        output.decimal(i as u64);
        output.text(b"=");
        board(output, after);
    }
}

// `PERMIT,CHANNEL,SOFT,HARD,PID`
fn board(output: &mut Output, board: Board)
    ensures { TextsAdded output.old (board_texts board) output.new }
{
    output.decimal(bit(board.permit) as u64);
    output.text(b",");
    byte(output, board.channel);
    output.text(b",");
    version(output, board.soft);
    version(output, board.hard);
    digits(output, &board.pid);
}

// A version, and the comma behind it.
fn version(output: &mut Output, bytes: [u8; 3])
    ensures { TextsAdded output.old (version_texts bytes) output.new }
{
    digits(output, &bytes);
    output.text(b",");
}

fn same_board(a: Board, b: Board) -> bool
    ensures { result ≡ same_board a b }
{
    a == b
}
