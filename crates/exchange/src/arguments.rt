// The program's arguments, read as its words.
ghost use Rattle.std.specs.Prelude.{◌≡◌, ◌≤◌, length};
ghost use Rattle.words.specs.Ranges.{InRange};

use sequences::part::front;
use std::env::{Env, FillError};
use words::words::Words;

// The longest word that Linux passes to a program has a byte less.
pub const MAX_WORD: usize = 131072;

// Room for a word.
pub(crate) fn room() -> [u8; MAX_WORD]
    ensures { 131072 ≡ length result }
{
    [0; MAX_WORD]
}

// Reads the words, each into the room, up to the first that is not taken.
pub(crate) fn read(rt: &HostRuntime, word: &mut [u8]) -> Words
    ensures { InRange result }
{
    let mut words = Words::none();
    for i in 1..usize::MAX {
        let got = rt.arg(i, &mut *word);
        if is_missing(got) {
            return words;
        }
        words = with_argument(words, i, got, word);
        if words.is_bad {
            return words;
        }
    }
    words
}

// Whether there is no argument at this place, nor behind it.
fn is_missing(got: Result<usize, FillError>) -> bool {
    matches!(got, Err(FillError::NotPresent))
}

// With the argument at place i, as it was got into the room.
fn with_argument(words: Words, i: usize, got: Result<usize, FillError>, word: &[u8]) -> Words
    ensures { InRange words → InRange result }
{
    match got {
        Ok(n) => words.with_word(i, front(word, n)),
        Err(_) => words.refused(b"a word has at most 131072 bytes", word),
    }
}

// Puts the argument at place i to the front of the room and answers its length, 0 where it is missing or too long.
pub(crate) fn argument(rt: &HostRuntime, i: usize, word: &mut [u8]) -> usize
    ensures { result ≤ length word.new }
{
    rt.arg(i, word).unwrap_or(0)
}
