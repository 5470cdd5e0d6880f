// The rows of the table. Names stand apart from numbers, and these in parts, for the sake of the proofs: what reads a constant builds it
// first, row by row, and a proof of that grows with the square of their number.
ghost use Rattle.std.specs.Prelude.{◌≡◌, ◌≤◌, ◌<◌};
ghost use Rattle.phrases.specs.Table.{row_count, fields_from, sender_from, limits_of, command_row};

use crate::table::{ANY, NAME, ROWS, Row, SENDER_OPEN, SET_BOARDS};
use sequences::place;

// The most that a number can be where the table says no less.
const MAX: usize = 18446744073709551615;

const NAMES: [u8; ROWS * NAME] = *b"room                     \
    area                     \
    image                    \
    write room               \
    write area               \
    write image              \
    board                    \
    open                     \
    feed                     \
    quiet                    \
    portion                  \
    report                   \
    show                     \
    set boards               \
    set board                \
    set opened               \
    set holding              \
    set held                 \
    set phase idle           \
    set phase asked          \
    set phase told           \
    set phase receiving      \
    set phase done           \
    set channel              \
    set agreed               \
    set next                 \
    set stored               \
    set image-channel        \
    set version              \
    set announced            \
    set md5                  \
    set crc                  \
    set last                 \
    set checking             \
    set read                 \
    set register             \
    sender open              \
    sender request           \
    sender reply             \
    sender silence           \
    sender show              \
    sender set channel       \
    sender set pid           \
    sender set version       \
    sender set md5           \
    sender set size          \
    sender set length        \
    sender set phase asking  \
    sender set phase telling \
    sender set phase placing \
    sender set phase sending \
    sender set phase ending  \
    sender set phase done    \
    sender set phase given-up\
    sender set place         \
    sender set number        \
    sender set silences      \
    sender set legs          ";

// The name's length; how many numbers, and the most of each; how many bytes.
#[derive(Clone, Copy)]
pub struct Limits {
    pub name_length: usize,
    pub numbers: usize,
    pub first: usize,
    pub second: usize,
    pub bytes: usize,
}

// A line of the tables below.
macro_rules! limits {
    ($name_length:expr, $numbers:expr, $first:expr, $second:expr, $bytes:expr) => {
        Limits {
            name_length: $name_length,
            numbers: $numbers,
            first: $first,
            second: $second,
            bytes: $bytes,
        }
    };
}

// From `room` to `show`.
const COMMANDS: [Limits; 13] = [
    limits!(4, 1, 65536, 0, 0), // room
    limits!(4, 1, 65536, 0, 0), // area
    limits!(5, 1, 1048577, 0, 0), // image
    limits!(10, 1, 65535, 0, ANY), // write room
    limits!(10, 1, 65535, 0, ANY), // write area
    limits!(11, 1, 1048576, 0, ANY), // write image
    limits!(5, 2, 9, 1, 15), // board
    limits!(4, 2, MAX, MAX, 0), // open
    limits!(4, 0, 0, 0, ANY), // feed
    limits!(5, 0, 0, 0, 0), // quiet
    limits!(7, 1, MAX, 0, 0), // portion
    limits!(6, 0, 0, 0, 0), // report
    limits!(4, 0, 0, 0, 0), // show
];

// From `set boards` to `set register`.
const FIELDS: [Limits; 23] = [
    limits!(10, 1, MAX, 0, 0), // set boards
    limits!(9, 2, 9, 1, 15), // set board
    limits!(10, 1, MAX, 0, 0), // set opened
    limits!(11, 1, MAX, 0, 0), // set holding
    limits!(8, 1, 525, 0, ANY), // set held
    limits!(14, 0, 0, 0, 0), // set phase idle
    limits!(15, 0, 0, 0, 0), // set phase asked
    limits!(14, 0, 0, 0, 0), // set phase told
    limits!(19, 0, 0, 0, 0), // set phase receiving
    limits!(14, 0, 0, 0, 0), // set phase done
    limits!(11, 1, 255, 0, 0), // set channel
    limits!(10, 1, MAX, 0, 0), // set agreed
    limits!(8, 1, MAX, 0, 0), // set next
    limits!(10, 1, MAX, 0, 0), // set stored
    limits!(17, 1, 255, 0, 0), // set image-channel
    limits!(11, 0, 0, 0, 3), // set version
    limits!(13, 1, MAX, 0, 0), // set announced
    limits!(7, 0, 0, 0, 16), // set md5
    limits!(7, 0, 0, 0, 4), // set crc
    limits!(8, 1, MAX, 0, 0), // set last
    limits!(12, 1, 1, 0, 0), // set checking
    limits!(8, 1, MAX, 0, 0), // set read
    limits!(12, 0, 0, 0, 4), // set register
];

// From `sender open` on.
const SENDER: [Limits; 22] = [
    limits!(11, 1, 65535, 0, 28), // sender open
    limits!(14, 0, 0, 0, 0), // sender request
    limits!(12, 0, 0, 0, ANY), // sender reply
    limits!(14, 0, 0, 0, 0), // sender silence
    limits!(11, 0, 0, 0, 0), // sender show
    limits!(18, 1, 255, 0, 0), // sender set channel
    limits!(14, 0, 0, 0, 8), // sender set pid
    limits!(18, 0, 0, 0, 3), // sender set version
    limits!(14, 0, 0, 0, 16), // sender set md5
    limits!(15, 1, 65535, 0, 0), // sender set size
    limits!(17, 1, MAX, 0, 0), // sender set length
    limits!(23, 0, 0, 0, 0), // sender set phase asking
    limits!(24, 0, 0, 0, 0), // sender set phase telling
    limits!(24, 0, 0, 0, 0), // sender set phase placing
    limits!(24, 0, 0, 0, 0), // sender set phase sending
    limits!(23, 0, 0, 0, 0), // sender set phase ending
    limits!(21, 0, 0, 0, 0), // sender set phase done
    limits!(25, 0, 0, 0, 0), // sender set phase given-up
    limits!(16, 1, MAX, 0, 0), // sender set place
    limits!(17, 1, MAX, 0, 0), // sender set number
    limits!(19, 1, MAX, 0, 0), // sender set silences
    limits!(15, 1, MAX, 0, 0), // sender set legs
];

// The row at a place; past the table's end there is nothing in it.
pub(crate) fn row_at(i: usize) -> Row
    ensures { result ≡ command_row i }
{
    if i < ROWS {
        let limits = limits_at(i);
        return Row {
            name: name_at(i),
            name_length: limits.name_length,
            numbers: limits.numbers,
            first: limits.first,
            second: limits.second,
            bytes: limits.bytes,
        };
    }
    Row {
        name: [0; NAME],
        name_length: 0,
        numbers: 0,
        first: 0,
        second: 0,
        bytes: 0,
    }
}

pub(crate) fn name_at(i: usize) -> [u8; NAME]
    requires { i < row_count }
    ensures { result ≡ (command_row i).name }
{
    let names = NAMES;
    let mut name = [0; NAME];
    place::copy_out(&names, i * NAME, &mut name);
    name
}

pub(crate) fn limits_at(i: usize) -> Limits
    requires { i < row_count }
    ensures { result ≡ limits_of (command_row i) }
{
    if i < SET_BOARDS {
        return of_commands(i);
    }
    if i < SENDER_OPEN {
        return of_fields(i);
    }
    of_sender(i)
}

fn of_commands(i: usize) -> Limits
    requires { i < fields_from }
    ensures { result ≡ limits_of (command_row i) }
{
    COMMANDS[i]
}

fn of_fields(i: usize) -> Limits
    requires { (fields_from ≤ i) × (i < sender_from) }
    ensures { result ≡ limits_of (command_row i) }
{
    FIELDS[i - SET_BOARDS]
}

fn of_sender(i: usize) -> Limits
    requires { (sender_from ≤ i) × (i < row_count) }
    ensures { result ≡ limits_of (command_row i) }
{
    SENDER[i - SENDER_OPEN]
}
