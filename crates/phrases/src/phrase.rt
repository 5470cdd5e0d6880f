// A line read as a command.
ghost use Rattle.std.specs.Prelude.{◌≡◌};
ghost use Rattle.sequences.specs.Places.{written_at};
ghost use Rattle.phrases.specs.Pairs.{bytes_in};
ghost use Rattle.phrases.specs.Phrases.{is_bad_count, trouble_behind_numbers, fine, troubled, phrase_with, taken};
ghost use Rattle.phrases.specs.Phrases.{phrase_behind_name, bytes_behind_name, phrase_of, bytes_of};

use crate::name::place_of;
use crate::number::number_if;
use crate::pairs::{decode, pairs_in};
use crate::rows::row_at;
use crate::spaces::spaces;
use crate::table::{ANY, ROWS, Row};
use sequences::part::behind;

// The most bytes that a line can give.
pub const BYTES: usize = 65536;

// What is the trouble with a line: the messages of docs/CONSOLE.md, in their order.
#[derive(Clone, Copy)]
pub enum Trouble {
    Fine,
    Unknown,
    FirstNumber,
    SecondNumber,
    More,
    Digits,
    Count,
}

// The command's place in the table, its numbers, and how many bytes it gives. A number that the command does not take is 0. Where there is
// trouble all but the place is 0, and the place is the table's length where the command is unknown.
#[derive(Clone, Copy)]
pub struct Phrase {
    pub command: usize,
    pub first: usize,
    pub second: usize,
    pub count: usize,
    pub trouble: Trouble,
}

// Reads a line of any length. Its bytes go to the front of `bytes`; where there is trouble all of `bytes` stays as it is.
pub fn read(line: &[u8], bytes: &mut [u8; BYTES]) -> Phrase
    ensures value { result ≡ phrase_of line.now }
    ensures bytes_after { bytes.new ≡ written_at bytes.old 0 (bytes_of line.now) }
{
    match place_of(line) {
        Some(command) => {
            let row = row_at(command);
            read_behind_name(command, row, behind(line, row.name_length), bytes)
        }
        None => troubled(ROWS, Trouble::Unknown),
    }
}

// With what stands behind the name.
fn read_behind_name(command: usize, row: Row, s: &[u8], bytes: &mut [u8; BYTES]) -> Phrase
    ensures value { result ≡ phrase_behind_name command row s.now }
    ensures bytes_after { bytes.new ≡ written_at bytes.old 0 (bytes_behind_name row s.now) }
{
    let Some(first) = number_if(0 < row.numbers, s, row.first) else {
        return troubled(command, Trouble::FirstNumber);
    };
    let behind_first = behind(s, first.end);
    let Some(second) = number_if(1 < row.numbers, behind_first, row.second) else {
        return troubled(command, Trouble::SecondNumber);
    };
    let behind_numbers = behind(behind_first, second.end);
    read_behind_numbers(
        command,
        first.value,
        second.value,
        row.bytes,
        behind_numbers,
        bytes,
    )
}

// With what stands behind the numbers, where so many bytes are expected.
fn read_behind_numbers(
    command: usize,
    first: usize,
    second: usize,
    expected: usize,
    s: &[u8],
    bytes: &mut [u8; BYTES],
) -> Phrase
    ensures value { result ≡ phrase_with command first second (bytes_in s.now) (trouble_behind_numbers expected s.now) }
    ensures bytes_after { bytes.new
        ≡ written_at bytes.old 0 (taken (bytes_in s.now) (trouble_behind_numbers expected s.now)) }
{
    if expected == 0 {
        if spaces(s) < s.len() {
            return troubled(command, Trouble::More);
        }
        return fine(command, first, second, 0);
    }
    let Some(count) = pairs_in(s) else {
        return troubled(command, Trouble::Digits);
    };
    if is_bad_count(expected, count) {
        return troubled(command, Trouble::Count);
    }
    decode(s, count, bytes);
    fine(command, first, second, count)
}

fn is_bad_count(expected: usize, count: usize) -> bool
    ensures { result ≡ is_bad_count expected count }
{
    BYTES < count || (expected != ANY && count != expected)
}

fn fine(command: usize, first: usize, second: usize, count: usize) -> Phrase
    ensures { result ≡ fine command first second count }
{
    Phrase {
        command,
        first,
        second,
        count,
        trouble: Trouble::Fine,
    }
}

fn troubled(command: usize, trouble: Trouble) -> Phrase
    ensures { result ≡ troubled command trouble }
{
    Phrase {
        command,
        first: 0,
        second: 0,
        count: 0,
        trouble,
    }
}
