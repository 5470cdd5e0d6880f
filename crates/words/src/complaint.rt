// Lines on standard error. Where that fails too there is nobody to tell.
ghost use Rattle.io.specs.Counts.{IsPrefixLen};

use text::complaint::say;

// As much of a word as is shown.
pub const SHOWN: usize = 200;

// What is expected, and the word that is not so.
pub fn complain(expected: &[u8], word: &[u8]) {
    name(expected, word);
    say(b"\n");
}

// All of the line but its end.
pub fn name(expected: &[u8], word: &[u8]) {
    let mut shown = [0u8; SHOWN];
    let n = show(word, &mut shown);
    say(b"exchange: ");
    say(expected);
    say(b": ");
    say(&shown[..n]);
    if n < word.len() {
        say(b"..");
    }
}

// Puts the front of a word into shown, so that it stays on its line, and answers how many bytes that are.
fn show(word: &[u8], shown: &mut [u8]) -> usize
    ensures { IsPrefixLen result shown.new }
{
    for (place, b) in shown.iter_mut().zip(word.iter()) {
        *place = on_a_line(*b);
    }
    word.len().min(shown.len())
}

// A control character would end or spoil the line.
fn on_a_line(b: u8) -> u8 {
    if b < b' ' || b == 0x7F { b'?' } else { b }
}
