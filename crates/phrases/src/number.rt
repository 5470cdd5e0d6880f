// A number in decimal, behind spaces.
ghost use Rattle.std.specs.Prelude.{◌≡◌, ◌+◌, ◌*◌, not, ltb};
ghost use Rattle.std.specs.List.{position};
ghost use Rattle.text.specs.Numbers.{digit_of};
ghost use Rattle.phrases.specs.Spaces.{front_count};
ghost use Rattle.phrases.specs.Numbers.{is_digit, number_of, number_in, number_if};

use crate::spaces::spaces;
use sequences::part::{behind, front};

const MOST_DIGITS: usize = 20;

// What a number at the front of some bytes says, and where it ends.
#[derive(Clone, Copy)]
pub struct Number {
    pub value: usize,
    pub end: usize,
}

// The number at the front of s, if the command takes it; one that it does not take is 0 and has no bytes.
pub fn number_if(is_taken: bool, s: &[u8], most: usize) -> Option<Number>
    ensures { result ≡ number_if is_taken most s.now }
{
    if is_taken {
        return number_in(s, most);
    }
    Some(Number { value: 0, end: 0 })
}

// It is none where there is no space before it, or no digit, or more digits than 20, or where it is above `most`.
fn number_in(s: &[u8], most: usize) -> Option<Number>
    ensures { result ≡ number_in most s.now }
{
    let start = spaces(s);
    if start == 0 {
        return None;
    }
    let rest = behind(s, start);
    let count = digits(rest);
    if count == 0 {
        return None;
    }
    if MOST_DIGITS < count {
        return None;
    }
    number_of(front(rest, count), start + count, most)
}

// The number that these digits say, unless it is above `most`. As each further digit makes it greater, it can be left at the first one
// that takes it there.
fn number_of(digits: &[u8], end: usize, most: usize) -> Option<Number>
    ensures { result ≡ number_of most end digits.now }
{
    let mut value = 0;
    for b in digits {
        let d = digit(*b);
        if is_above(value, d, most) {
            return None;
        }
        value = 10 * value + d;
    }
    Some(Number { value, end })
}

// Whether 10 value + d is above `most`.
fn is_above(value: usize, d: usize, most: usize) -> bool
    ensures { result ≡ ltb most (10 * value + d) }
{
    most < d || (most - d) / 10 < value
}

// How many digits stand at the front.
fn digits(s: &[u8]) -> usize
    ensures { result ≡ front_count is_digit s.now }
{
    first_other(s).unwrap_or(s.len())
}

// The place of the first byte that is no digit.
fn first_other(s: &[u8]) -> Option<usize>
    ensures { result ≡ position (λ b. not (is_digit b)) s.now }
{
    s.iter().position(|b| is_other(*b))
}

fn is_other(b: u8) -> bool
    ensures { result ≡ not (is_digit b) }
{
    9 < digit(b)
}

// What a digit says; 10 for another byte, and no Option: `digit_of` of `text` says so.
fn digit(b: u8) -> usize
    ensures { result ≡ digit_of b }
{
    match b {
        b'0'..=b'9' => (b - b'0') as usize,
        _ => 10,
    }
}
