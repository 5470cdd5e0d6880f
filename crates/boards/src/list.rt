// The board list: "1 to 10 boards (channel 10 to 19, none twice; ..)".
ghost use Rattle.std.specs.Prelude.{◌≡◌, ◌≤◌, ◌<◌, ltb, eqb};
ghost use Rattle.std.specs.List.{position};
ghost use Rattle.sequences.specs.Search.{find};
ghost use Rattle.boards.specs.declared.board.Board.{Board};
ghost use Rattle.boards.specs.Boards.{max_boards, no_board, place_in, board_at, bad_board, bad_list, list_of};

use crate::board::Board;

pub const MAX_BOARDS: usize = 10;

pub const FIRST_CHANNEL: u8 = 10;

pub const LAST_CHANNEL: u8 = 19;

// Whether the list of the first `count` boards breaks its rules.
#[tactic(auto, unfolding(crate::specs::Boards::bad_list))]
pub fn bad_list(boards: [Board; MAX_BOARDS], count: usize) -> bool
    ensures { result ≡ bad_list boards count }
{
    count < 1 || MAX_BOARDS < count || any_bad_board(boards, count)
}

fn any_bad_board(boards: [Board; MAX_BOARDS], count: usize) -> bool
    requires { count ≤ max_boards }
    ensures { result ≡ ltb (find (bad_board boards) count 0) count }
{
    // Not `any`: what it says of its calls did not prove that the definition's search finds a place.
    for i in 0..count {
        if bad_board(boards, i) {
            return true;
        }
    }
    false
}

// Whether the board at place i has a channel out of range, or one that stands in the list before it.
fn bad_board(boards: [Board; MAX_BOARDS], i: usize) -> bool
    requires { i < max_boards }
    ensures { result ≡ bad_board boards i }
{
    let channel = boards[i].channel;
    channel < FIRST_CHANNEL || LAST_CHANNEL < channel || place_of(boards, i, channel) < i
}

// The place of a channel among the first `count` boards, or `count`: the contract, which callers compare with, has no Option. Where that is
// more than a list can have there is no place.
pub fn place_of(boards: [Board; MAX_BOARDS], count: usize, channel: u8) -> usize
    ensures { (result ≡ place_in boards count channel) × (result ≤ count) }
{
    if MAX_BOARDS < count {
        return count;
    }
    first_with(&boards[..count], channel).unwrap_or(count)
}

fn first_with(boards: &[Board], channel: u8) -> Option<usize>
    ensures { result ≡ position (λ (board : Board). eqb board.channel channel) boards.now }
{
    boards.iter().position(|board| board.channel == channel)
}

// The board at a place; all zero past the list's places.
pub fn board_at(boards: [Board; MAX_BOARDS], i: usize) -> Board
    ensures { result ≡ board_at boards i }
{
    if i < MAX_BOARDS {
        boards[i]
    } else {
        no_board()
    }
}

pub fn no_board() -> Board
    ensures { result ≡ no_board }
{
    Board {
        channel: 0,
        soft: [0; 3],
        hard: [0; 3],
        pid: [0; 8],
        permit: false,
    }
}

// The first `count` boards, and zeros in the unused places, whatever stood there.
pub fn list_of(boards: [Board; MAX_BOARDS], count: usize) -> [Board; MAX_BOARDS]
    ensures { result ≡ list_of boards count }
{
    let mut list = boards;
    if count < MAX_BOARDS {
        list[count..].fill(no_board());
    }
    list
}
