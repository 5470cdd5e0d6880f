// Lines in a buffer.
ghost use Rattle.std.specs.Prelude.{◌≡◌, ◌≤◌, ◌==◌, length};
ghost use Rattle.std.specs.List.{position};
ghost use Rattle.std.proofs.Math.Seq.{slice};
ghost use Rattle.lines.specs.Lines.{newline_byte, no_lines, line_in, next_line, line_ended, last_line, more_wanted, passed_over, line_told};
ghost use Rattle.lines.specs.Lines.{next_with, ToFront, GotWithin, GotBehind, ReadOn};

use sequences::part::between;
use std::io::{Read, Stdin};

// The length of the input buffer: as `io::large_buffer` gives.
pub const INPUT: usize = 65536;

#[derive(Clone, Copy)]
pub struct Lines {
    // Of the buffer the bytes from `at` to `end` belong to lines that are not told yet.
    pub at: usize,
    pub end: usize,
    // How many lines were told.
    pub number: u64,
    // Those bytes begin within a line that is too long.
    pub is_passing: bool,
    // Nothing is to be read any more: the last read brought nothing,
    pub is_over: bool,
    // or failed.
    pub failed: bool,
}

#[derive(Clone, Copy)]
pub enum Kind {
    // The next line stands in the buffer: so many bytes from `from` on.
    Line { from: usize, length: usize },
    // The next line is too long, and is passed.
    TooLong,
    // The next line is not finished: `read`.
    Unfinished,
    // There is no line any more.
    None,
}

#[derive(Clone, Copy)]
pub struct Next {
    pub kind: Kind,
    pub lines: Lines,
}

impl Lines {
    // Nothing is read yet.
    pub fn none() -> Lines
        ensures { result ≡ no_lines }
    {
        Lines {
            at: 0,
            end: 0,
            number: 0,
            is_passing: false,
            is_over: false,
            failed: false,
        }
    }

    // What comes next, by the bytes that are not told yet. A full buffer without a newline is of a line too long.
    pub fn next(self, input: &[u8; INPUT]) -> Next
        ensures { result ≡ next_line self input.now }
    {
        let waiting = between(input, self.at, self.end);
        let length = line_in(waiting);
        if length < waiting.len() {
            return self.line_ended(length);
        }
        if length < INPUT {
            if self.is_over {
                return self.last_line(length);
            }
            return self.more_wanted();
        }
        self.passed_over()
    }

    // A newline stands behind so many bytes.
    fn line_ended(mut self, length: usize) -> Next
        ensures { result ≡ line_ended self length }
    {
        let from = self.at;
        self.at = from.wrapping_add(length).wrapping_add(1);
        self.told(from, length)
    }

    // The input is at its end, with so many bytes behind the last newline.
    fn last_line(mut self, length: usize) -> Next
        ensures { result ≡ last_line self length }
    {
        let from = self.at;
        if self.is_passing {
            self.at = self.end;
            return self.told(from, length);
        }
        if length == 0 {
            return self.with(Kind::None);
        }
        self.at = self.end;
        self.told(from, length)
    }

    // No newline yet. What is within a line too long is not kept.
    fn more_wanted(self) -> Next
        ensures { result ≡ more_wanted self }
    {
        if self.is_passing {
            return self.passed_over();
        }
        self.with(Kind::Unfinished)
    }

    // They are all of a line too long, which is not at its end.
    fn passed_over(mut self) -> Next
        ensures { result ≡ passed_over self }
    {
        self.at = self.end;
        self.is_passing = true;
        self.with(Kind::Unfinished)
    }

    // The line of so many bytes that begins there is told; one that is too long is passed.
    fn told(mut self, from: usize, length: usize) -> Next
        ensures { result ≡ line_told self from length }
    {
        self.number = self.number.wrapping_add(1);
        if self.is_passing {
            self.is_passing = false;
            return self.with(Kind::TooLong);
        }
        self.with(Kind::Line { from, length })
    }

    fn with(self, kind: Kind) -> Next
        ensures { result ≡ next_with self kind }
    {
        Next { kind, lines: self }
    }

    // Reads on behind the bytes that are not told yet, which go to the buffer's front.
    pub fn read(mut self, stdin: Stdin, input: &mut [u8; INPUT]) -> Lines
        ensures { ReadOn self input.old result input.new }
    {
        let kept = to_front(self.at, self.end, &mut *input);
        let got = read_behind(stdin, kept, input);
        let count = got.unwrap_or(0);
        self.at = 0;
        self.end = kept + count;
        self.is_over = count == 0;
        self.failed = got.is_none();
        self
    }
}

// One read, to behind the first `kept` bytes; None where it fails.
fn read_behind(stdin: Stdin, kept: usize, all: &mut [u8]) -> Option<usize>
    requires { kept ≤ length all.old }
    ensures { GotBehind kept all.old result all.new }
{
    read_into(stdin, &mut all[kept..])
}

fn read_into(mut stdin: Stdin, rest: &mut [u8]) -> Option<usize>
    ensures { GotWithin (length rest.old) result }
{
    stdin.read(rest).ok()
}

// Moves the bytes between these places to the front, and answers how many they are.
fn to_front(at: usize, end: usize, input: &mut [u8; INPUT]) -> usize
    ensures { ToFront (slice at end input.old) result input.new }
{
    let end = end.min(INPUT);
    let at = at.min(end);
    input.copy_within(at..end, 0);
    end - at
}

// The bytes before the first newline.
fn line_in(s: &[u8]) -> usize
    ensures { result ≡ line_in s.now }
{
    first_newline(s).unwrap_or(s.len())
}

fn first_newline(s: &[u8]) -> Option<usize>
    ensures { result ≡ position (λ b. b == newline_byte) s.now }
{
    s.iter().position(|b| *b == b'\n')
}
