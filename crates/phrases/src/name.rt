// The command's name at the front of a line.
ghost use Rattle.std.specs.Prelude.{◌≡◌, drop};
ghost use Rattle.phrases.specs.Names.{name_ends, is_named, command_place, place_told};

use crate::rows::row_at;
use crate::table::ROWS;
use sequences::part::{begins, front};

// The place in the table of the command that a line begins with.
pub fn place_of(line: &[u8]) -> Option<usize>
    ensures { result ≡ place_told (command_place line.now) }
{
    for i in 0..ROWS {
        if is_named(line, i) {
            return Some(i);
        }
    }
    None
}

// Whether the name at place i of the table stands at the line's front, with a space or the line's end behind it.
fn is_named(line: &[u8], i: usize) -> bool
    ensures { result ≡ is_named line.now i }
{
    let row = row_at(i);
    begins(line, front(&row.name, row.name_length)) && name_ends(line, row.name_length)
}

// Whether a name of so many bytes ends there.
fn name_ends(line: &[u8], length: usize) -> bool
    ensures { result ≡ name_ends (drop «length» line.now) }
{
    line.len() <= length || line[length] == b' '
}
