// What the link does to the frames.
ghost use Rattle.std.specs.Prelude.{◌≡◌};
ghost use Rattle.link.specs.Scripts.{letter_said, letter_of, used_up, after_sending, is_letter, all_letters};

// A frame passes, is lost, or is repeated; silence is told. Any other byte but 0 is kept as it stands: a script that was not read by
// `is_script` may have it, and who asks for the next letter is told which it is.
#[derive(Clone, Copy, PartialEq, Eq)]
pub enum Letter {
    Pass,
    Lose,
    Repeat,
    Silence,
    Other(u8),
}

impl Letter {
    // What a byte of a script says; 0 says that none is left.
    fn said(b: u8) -> Option<Letter>
        ensures { result ≡ letter_said b }
    {
        match b {
            b'p' => Some(Letter::Pass),
            b'l' => Some(Letter::Lose),
            b'r' => Some(Letter::Repeat),
            b's' => Some(Letter::Silence),
            0 => None,
            other => Some(Letter::Other(other)),
        }
    }
}

// The letters from `at` to `end` of the word are not used up.
#[derive(Clone, Copy)]
pub struct Script {
    pub at: usize,
    pub end: usize,
}

impl Script {
    // The next letter, if one is left.
    pub fn next(self, letters: &[u8]) -> Option<Letter>
        ensures { result ≡ letter_of self letters.now }
    {
        if self.at < self.end {
            Letter::said(*letters.get(self.at)?)
        } else {
            None
        }
    }

    // The next letter is used up.
    pub fn after(mut self) -> Script
        ensures { result ≡ used_up self }
    {
        if self.at < self.end {
            self.at += 1;
        }
        self
    }

    // A frame was sent: that uses up its letter. Silence is no letter of a frame, and waits.
    pub fn after_sending(self, letters: &[u8]) -> Script
        ensures { result ≡ after_sending self letters.now }
    {
        if self.next(letters) == Some(Letter::Silence) {
            self
        } else {
            self.after()
        }
    }
}

// Whether all these bytes are letters of a script.
pub fn is_script(letters: &[u8]) -> bool
    ensures { result ≡ all_letters letters.now }
{
    letters.iter().all(|b| is_letter(*b))
}

fn is_letter(b: u8) -> bool
    ensures { result ≡ is_letter b }
{
    matches!(b, b'p' | b'l' | b'r' | b's')
}
