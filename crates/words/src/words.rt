// What the words say.
ghost use Rattle.std.specs.Prelude.{◌≡◌, ◌≤◌, IfSome, drop};
ghost use Rattle.link.specs.Scripts.{all_letters};
ghost use Rattle.text.specs.Numbers.{number_said};
ghost use Rattle.boards.specs.Boards.{first_channel, last_channel};
ghost use Rattle.commands.specs.Limits.{min_packet};
ghost use Rattle.words.specs.Sayings.{most_size, channel_name, size_name, link_name, behind_name, number_between, no_words};
ghost use Rattle.words.specs.Sayings.{board_channel, packet_size};
ghost use Rattle.words.specs.Sayings.{not_taken, place_said, with_image, with_channel, with_size, with_link, word_said};

use crate::complaint::complain;
use bench::CHANNEL;
use boards::list::{FIRST_CHANNEL, LAST_CHANNEL};
use commands::limits::MIN_PACKET;
use link::script;
use sequences::part::{begins, behind};
use text::number::number;

const LEAST_CHANNEL: usize = FIRST_CHANNEL as usize;

const MOST_CHANNEL: usize = LAST_CHANNEL as usize;

// The most that the size's two bytes can say.
const MOST_SIZE: usize = 65535;

#[derive(Clone, Copy)]
pub struct Words {
    // The places of these two words among the arguments.
    pub image: Option<usize>,
    pub link: Option<usize>,
    // What these two say.
    pub channel: Option<u8>,
    pub size: Option<u16>,
    // There was a word that is not taken, and that has been told. A flag beside the others, as what they said stays (`not_taken`).
    pub is_bad: bool,
}

impl Words {
    // No word was said.
    pub fn none() -> Words
        ensures { result ≡ no_words }
    {
        Words {
            image: None,
            link: None,
            channel: None,
            size: None,
            is_bad: false,
        }
    }

    // The channel of the board, said or not.
    pub fn board_channel(self) -> u8
        ensures { result ≡ board_channel self }
    {
        self.channel.unwrap_or(CHANNEL)
    }

    // The size of the packets, said or not.
    pub fn packet_size(self) -> u16
        ensures { result ≡ packet_size self }
    {
        self.size.unwrap_or(MIN_PACKET as u16)
    }

    // With the word at place i of the arguments.
    pub fn with_word(self, i: usize, word: &[u8]) -> Words
        ensures { result ≡ word_said self i word.now }
    {
        if begins(word, b"image=") {
            return self.with_image(i, word);
        }
        if begins(word, b"channel=") {
            return self.with_channel(word);
        }
        if begins(word, b"size=") {
            return self.with_size(word);
        }
        if begins(word, b"link=") {
            return self.with_link(i, word);
        }
        self.refused(
            b"a word is image=FILE, channel=N, size=N or link=SCRIPT",
            word,
        )
    }

    fn with_image(mut self, i: usize, word: &[u8]) -> Words
        ensures { result ≡ with_image self i }
    {
        if self.image.is_some() {
            return self.refused(b"image comes once", word);
        }
        self.image = place_said(i);
        self
    }

    fn with_channel(mut self, word: &[u8]) -> Words
        ensures { result ≡ with_channel self (number_between first_channel last_channel (behind_name channel_name word.now)) }
    {
        if self.channel.is_some() {
            return self.refused(b"channel comes once", word);
        }
        match number_behind(word, b"channel=".len(), LEAST_CHANNEL, MOST_CHANNEL) {
            Some(n) => {
                self.channel = Some(n as u8);
                self
            }
            None => self.refused(b"channel is 10 to 19", word),
        }
    }

    fn with_size(mut self, word: &[u8]) -> Words
        ensures { result ≡ with_size self (number_between min_packet most_size (behind_name size_name word.now)) }
    {
        if self.size.is_some() {
            return self.refused(b"size comes once", word);
        }
        match number_behind(word, b"size=".len(), MIN_PACKET, MOST_SIZE) {
            Some(n) => {
                self.size = Some(n as u16);
                self
            }
            None => self.refused(b"size is 16 to 65535", word),
        }
    }

    fn with_link(mut self, i: usize, word: &[u8]) -> Words
        ensures { result ≡ with_link self i (behind_name link_name word.now) }
    {
        if self.link.is_some() {
            return self.refused(b"link comes once", word);
        }
        if !is_script_behind(word, b"link=".len()) {
            return self.refused(b"link has the letters p, l, r and s only", word);
        }
        self.link = place_said(i);
        self
    }

    // A word is not taken: what is expected is told.
    pub fn refused(mut self, expected: &[u8], word: &[u8]) -> Words
        ensures { result ≡ not_taken self }
    {
        complain(expected, word);
        self.is_bad = true;
        self
    }
}

// The place of a word among the arguments. Place 0 has the program's name: nothing is kept of what is said there.
fn place_said(i: usize) -> Option<usize>
    ensures { result ≡ place_said i }
{
    if i == 0 { None } else { Some(i) }
}

// The number behind the name of a word, which has so many bytes, if it is from `least` to `most`.
fn number_behind(word: &[u8], name: usize, least: usize, most: usize) -> Option<usize>
    ensures value { result ≡ number_between least most (drop name word.now) }
    ensures upper_bound { IfSome result (λ n. n ≤ most) }
{
    match said_behind(word, name) {
        Some(n) => { if n < least || most < n { None } else { Some(n) } }
        None => None,
    }
}

fn said_behind(word: &[u8], name: usize) -> Option<usize>
    ensures { result ≡ number_said (drop name word.now) }
{
    number(behind(word, name))
}

fn is_script_behind(word: &[u8], name: usize) -> bool
    ensures { result ≡ all_letters (drop name word.now) }
{
    script::is_script(behind(word, name))
}
