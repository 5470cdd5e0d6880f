// The end check: the image's bytes are read back in portions.
ghost use Rattle.std.specs.Prelude.{◌≡◌, ◌-◌, ◌≤◌};
ghost use Rattle.image.specs.Checks.{no_check, started_check, read_on, verdict_of, portion_of};

use sequences::bounds::{past, smaller};
use sequences::part::between;

#[derive(Clone, Copy)]
pub struct Check {
    // A flag beside the others and no Option of them: `no_check` and the console name read and register of a check that does not run.
    pub running: bool,
    // How many bytes of the image it has read.
    pub read: usize,
    // The CRC-32 register after them.
    pub register: u32,
}

#[derive(Clone, Copy, PartialEq, Eq)]
pub enum Verdict {
    Unfinished,
    Right,
    Wrong,
}

// What a portion makes of a check, and how many bytes it read.
#[derive(Clone, Copy)]
pub struct Portion {
    pub count: usize,
    pub verdict: Verdict,
    pub check: Check,
}

impl Check {
    pub fn none() -> Check
        ensures { result ≡ no_check }
    {
        Check {
            running: false,
            read: 0,
            register: 0,
        }
    }

    // Nothing is read yet.
    pub fn started() -> Check
        ensures { result ≡ started_check }
    {
        Check {
            running: true,
            read: 0,
            register: crc32::INIT,
        }
    }

    // Reads at most `most` bytes on, of an image of `announced` bytes. With the last one comes the verdict: is its CRC-32 this one?
    pub fn portion(self, most: usize, announced: usize, crc: u32, area: &[u8]) -> Portion
        ensures { result ≡ portion_of self most announced crc area.now }
    {
        let count = smaller(most, past(announced, self.read));
        let check = self.read_on(count, announced, area);
        let verdict = check.verdict(announced, crc);
        Portion {
            count,
            verdict,
            check,
        }
    }

    // Reads n bytes more.
    fn read_on(self, n: usize, announced: usize, area: &[u8]) -> Check
        requires { n ≤ announced - self.read }
        ensures { result ≡ read_on self n area.now }
    {
        let from = self.read;
        let to = from + n;
        Check {
            read: to,
            register: crc32::update(self.register, between(area, from, to)),
            ..self
        }
    }

    fn verdict(self, announced: usize, crc: u32) -> Verdict
        ensures { result ≡ verdict_of self announced crc }
    {
        if self.read < announced {
            Verdict::Unfinished
        } else if crc32::finish(self.register) == crc {
            Verdict::Right
        } else {
            Verdict::Wrong
        }
    }
}
