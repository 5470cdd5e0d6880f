// The run, turn by turn: what both ends and the link between them do.
ghost use Rattle.std.specs.Prelude.{◌≡◌, List, ℕ, length};
ghost use Rattle.link.specs.Scripts.{is_silence, letter_of};
ghost use Rattle.dialogue.specs.Dialogues.{dialogue_of, TurnMade, is_over};
ghost use Rattle.dialogue.specs.Starts.{Started};
ghost use Rattle.dialogue.specs.Turns.{request_turn, after_decision, silence_told, at_sender, at_controller, check_portion, turn_of};
ghost use Rattle.dialogue.specs.Endings.{is_done, end_texts, EndingTold};

use crate::answer::answer;
use crate::stored;
use bench::AREA;
use carrier::carrier::Carrier;
use controller::call::MIN_ROOM;
use controller::record::Record;
use link::frame::{Frame, Way};
use link::link::MEMORY;
use link::script::{Letter, Script};
use sender::decision::{Decided, Decision};
use sender::phase::Phase;
use sender::sender::Sender;
use sequences::part::begins;
use text::output::Output;

// What is kept from turn to turn.
#[derive(Clone, Copy)]
pub struct Run {
    pub sender: Sender,
    pub record: Record,
    pub carrier: Carrier,
    // The sender has said done or given up.
    pub is_ended: bool,
}

impl Run {
    // The controller has the bench's board on this channel; the sender's packets have this size.
    pub fn start(channel: u8, size: u16, script: Script, image: &[u8]) -> Run
        ensures { Started channel size script (length image.now) result }
    {
        let sender = ends::open_sender(channel, size, image);
        let record = bench::open_on(channel);
        Run {
            sender,
            record,
            carrier: Carrier::empty(script),
            is_ended: false,
        }
    }

    // A failed write ends the run too.
    pub fn is_over(self, output: &Output) -> bool
        ensures { result ≡ is_over self output.now }
    {
        output.failed || self.is_ended
    }

    // The sender's request is sent. The area is not lent, so whatever stands in it stays.
    pub fn request(
        mut self,
        image: &[u8],
        letters: &[u8],
        memory: &mut [u8; MEMORY],
        output: &mut Output,
    ) -> Run
        ensures { (area : List ℕ)
            → TurnMade (request_turn (dialogue_of self memory.old area) image.now letters.now)
            output.old result memory.new area output.new }
    {
        let request = ends::request(self.sender, image);
        self.carrier = self.carrier.send(request, letters, memory, output);
        self
    }

    // A portion of the controller's end check, if one runs; else a silence, or an arrival.
    pub fn turn(
        mut self,
        image: &[u8],
        letters: &[u8],
        memory: &mut [u8; MEMORY],
        area: &mut [u8; AREA],
        output: &mut Output,
    ) -> Run
        ensures { TurnMade
            (turn_of (dialogue_of self memory.old area.old) image.now letters.now)
            output.old result memory.new area.new output.new }
    {
        if self.record.is_checking() {
            return self.check(image, letters, memory, area, output);
        }
        if self.is_silent(letters) {
            self.carrier.script = self.carrier.script.after();
            return self.silence(image, letters, memory, output);
        }
        if self.carrier.link.count == 0 {
            return self.silence(image, letters, memory, output);
        }
        let frame = self.carrier.link.oldest(memory);
        self.carrier.link = self.carrier.link.without_oldest();
        match frame.way {
            Way::ToController => self.at_controller(frame, image, letters, memory, area, output),
            Way::ToSender => self.at_sender(frame, image, letters, memory, output),
        }
    }

    // What is left to say once the run is over.
    pub fn end(self, image: &[u8], memory: &[u8; MEMORY], area: &[u8; AREA], output: &mut Output)
        ensures { EndingTold (end_texts (dialogue_of self memory.now area.now) image.now) output.old output.new }
    {
        self.carrier.cleared(b"left", memory, output);
        let transfer = self.record.session.transfer;
        transcript::sender_end(output, self.is_done());
        transcript::controller_end(
            output,
            transfer.leg.phase,
            transfer.progress.stored,
            image.len(),
        );
        transcript::area_end(output, begins(area, image));
        output.flush();
    }

    fn silence(
        self,
        image: &[u8],
        letters: &[u8],
        memory: &mut [u8; MEMORY],
        output: &mut Output,
    ) -> Run
        ensures { (area : List ℕ)
            → TurnMade (silence_told (dialogue_of self memory.old area) image.now letters.now)
            output.old result memory.new area output.new }
    {
        let d = self.sender.silence(image);
        transcript::silence(output, u8::from(d.outcome), d.decision);
        self.decided(d, image, letters, memory, output)
    }

    fn at_sender(
        self,
        frame: Frame,
        image: &[u8],
        letters: &[u8],
        memory: &mut [u8; MEMORY],
        output: &mut Output,
    ) -> Run
        ensures { (area : List ℕ)
            → TurnMade (at_sender (dialogue_of self memory.old area) frame image.now letters.now)
            output.old result memory.new area output.new }
    {
        let d = ends::hear(self.sender, frame, image);
        transcript::at_sender(output, frame, u8::from(d.outcome), d.decision);
        self.decided(d, image, letters, memory, output)
    }

    // What the sender's decision does. With a new leg, what is under way is dropped before the request is sent.
    fn decided(
        mut self,
        d: Decided,
        image: &[u8],
        letters: &[u8],
        memory: &mut [u8; MEMORY],
        output: &mut Output,
    ) -> Run
        ensures { (area : List ℕ)
            → TurnMade (after_decision d (dialogue_of self memory.old area) image.now letters.now)
            output.old result memory.new area output.new }
    {
        self.sender = d.next;
        match d.decision {
            Decision::Nothing => self,
            Decision::GoOn | Decision::SendAgain => self.request(image, letters, memory, output),
            Decision::NewLeg => {
                self.carrier = self.carrier.cleared(b"dropped", memory, output);
                self.request(image, letters, memory, output)
            }
            Decision::Done | Decision::GivenUp => {
                self.is_ended = true;
                self
            }
        }
    }

    fn at_controller(
        mut self,
        frame: Frame,
        image: &[u8],
        letters: &[u8],
        memory: &mut [u8; MEMORY],
        area: &mut [u8; AREA],
        output: &mut Output,
    ) -> Run
        ensures { TurnMade
            (at_controller (dialogue_of self memory.old area.old) frame image.now letters.now)
            output.old result memory.new area.new output.new }
    {
        let mut room = [0u8; MIN_ROOM];
        let c = ends::feed(self.record, frame, &mut room, &mut *area);
        transcript::at_controller(output, frame, u8::from(c.outcome));
        stored::tell(output, self.record, c.next, image, area);
        self.record = c.next;
        self.carrier = answer(self.carrier, room, c.reply_length, letters, memory, output);
        self
    }

    // A portion has no line of its own. With the verdict comes the reply to the end request.
    fn check(
        mut self,
        image: &[u8],
        letters: &[u8],
        memory: &mut [u8; MEMORY],
        area: &[u8; AREA],
        output: &mut Output,
    ) -> Run
        ensures { TurnMade
            (check_portion (dialogue_of self memory.old area.now) image.now letters.now)
            output.old result memory.new area.now output.new }
    {
        let mut room = [0u8; MIN_ROOM];
        let p = ends::check(self.record, &mut room, area);
        stored::tell(output, self.record, p.next, image, area);
        self.record = p.next;
        self.carrier = answer(self.carrier, room, p.reply_length, letters, memory, output);
        self
    }

    // The script's next letter tells silence.
    fn is_silent(self, letters: &[u8]) -> bool
        ensures { result ≡ is_silence (letter_of self.carrier.script letters.now) }
    {
        self.carrier.script.next(letters) == Some(Letter::Silence)
    }

    fn is_done(self) -> bool
        ensures { result ≡ is_done self.sender.position.phase }
    {
        matches!(self.sender.position.phase, Phase::Done)
    }
}
