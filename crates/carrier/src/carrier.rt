// The link and its script; the lines about the frames are put behind those that wait for standard output.
ghost use Rattle.std.specs.Prelude.{◌≡◌, List, ℕ};
ghost use Rattle.carrier.specs.Sending.{empty_carrier, passing, losing, sending, CarriesOn};
ghost use Rattle.carrier.specs.Clearing.{cleared};

use link::frame::Frame;
use link::link::{Link, MEMORY, PLACES};
use link::script::{Letter, Script};
use text::output::Output;

#[derive(Clone, Copy)]
pub struct Carrier {
    pub link: Link,
    pub script: Script,
}

impl Carrier {
    // Nothing is under way.
    pub fn empty(script: Script) -> Carrier
        ensures { result ≡ empty_carrier script }
    {
        Carrier {
            link: Link::empty(),
            script,
        }
    }

    // As the script's next letter says; where none is left it passes.
    pub fn send(
        mut self,
        frame: Frame,
        letters: &[u8],
        memory: &mut [u8; MEMORY],
        output: &mut Output,
    ) -> Carrier
        ensures { CarriesOn (sending self.link self.script memory.old frame letters.now) output.old result memory.new output.new }
    {
        let letter = self.script.next(letters).unwrap_or(Letter::Pass);
        self.script = self.script.after_sending(letters);
        match letter {
            Letter::Lose => self.lose(frame, output),
            Letter::Repeat => self.pass(frame, memory, output).pass(frame, memory, output),
            Letter::Pass | Letter::Silence | Letter::Other(_) => self.pass(frame, memory, output),
        }
    }

    // Nothing is under way any more; each copy that was has this fate.
    pub fn cleared(mut self, fate: &[u8], memory: &[u8; MEMORY], output: &mut Output) -> Carrier
        ensures { CarriesOn (cleared self.link self.script memory.now fate.now) output.old result memory.now output.new }
    {
        for _ in 0..self.link.count {
            transcript::gone(output, self.link.oldest(memory), fate);
            self.link = self.link.without_oldest();
        }
        self
    }

    // A copy goes under way, or is lost where all places are taken.
    fn pass(mut self, frame: Frame, memory: &mut [u8; MEMORY], output: &mut Output) -> Carrier
        ensures { CarriesOn (passing self.link self.script memory.old frame) output.old result memory.new output.new }
    {
        if self.link.count < PLACES {
            self.link = self.link.with(frame, memory);
            self
        } else {
            self.lose(frame, output)
        }
    }

    fn lose(self, frame: Frame, output: &mut Output) -> Carrier
        ensures { (memory : List ℕ) → CarriesOn (losing self.link self.script memory frame) output.old result memory output.new }
    {
        transcript::gone(output, frame, b"lost");
        self
    }
}
