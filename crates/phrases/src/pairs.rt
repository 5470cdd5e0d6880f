// Bytes as pairs of hexadecimal digits, with spaces before them, between two of them and behind them.
ghost use Rattle.std.specs.Prelude.{◌≡◌, true, not, ◌≤◌, length, drop, get_or};
ghost use Rattle.sequences.specs.Places.{written_at};
ghost use Rattle.phrases.specs.Pairs.{hex_of, is_pair, byte_of, are_pairs, bytes_in, pairs_in};

use crate::spaces::{spaces, spaces_end};
use sequences::part::behind;

// How many there are; None where something else stands there.
pub fn pairs_in(s: &[u8]) -> Option<usize>
    ensures { result ≡ pairs_in s.now }
{
    let mut at = spaces(s);
    let mut count = 0;
    while at < s.len() {
        if is_bad_pair(s, at) {
            return None;
        }
        at = spaces_end(s, at + 2);
        count += 1;
    }
    Some(count)
}

// Puts the bytes that s has pairs for, so many, to the front.
pub(crate) fn decode(s: &[u8], count: usize, bytes: &mut [u8])
    requires { (are_pairs s.now ≡ true) × ((count ≡ length (bytes_in s.now)) × (count ≤ length bytes.old)) }
    ensures { bytes.new ≡ written_at bytes.old 0 (bytes_in s.now) }
{
    let mut at = spaces(s);
    for i in 0..count {
        bytes[i] = byte_at(s, at);
        at = spaces_end(s, at + 2);
    }
}

// Whether something else than two digits stands at this place.
fn is_bad_pair(s: &[u8], at: usize) -> bool
    ensures { result ≡ not (is_pair (drop at s.now)) }
{
    let rest = behind(s, at);
    rest.len() < 2 || 15 < digit(rest[0]) || 15 < digit(rest[1])
}

// The byte whose digits stand at this place.
fn byte_at(s: &[u8], at: usize) -> u8
    requires { is_pair (drop at s.now) ≡ true }
    ensures { result ≡ byte_of (get_or (drop at s.now) 0 0) (get_or (drop at s.now) 1 0) }
{
    let rest = behind(s, at);
    16 * digit(rest[0]) + digit(rest[1])
}

// What a hexadecimal digit says; 16 for another byte, and no Option: `hex_of` says so.
#[tactic(auto, unfolding(crate::specs::Pairs::hex_of))]
fn digit(b: u8) -> u8
    ensures { result ≡ hex_of b }
{
    match b {
        b'0'..=b'9' => b - b'0',
        b'A'..=b'F' => b - b'A' + 10,
        b'a'..=b'f' => b - b'a' + 10,
        _ => 16,
    }
}
