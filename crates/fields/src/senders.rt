// A field of the sender's record.
ghost use Rattle.std.specs.Prelude.{◌≡◌};
ghost use Rattle.fields.specs.SenderFields.{sender_set, offer_set, position_set, tries_set, phase_set};

use crate::choice::{bytes_at, choose};
use phrases::phrase::{BYTES, Phrase};
use phrases::table;
use sender::phase::Phase;
use sender::sender::{Offer, Position, Sender, Tries};

// With the field that the phrase names as the phrase says.
#[tactic(auto, unfolding(crate::specs::SenderFields::sender_set))]
pub fn set(sender: Sender, phrase: Phrase, bytes: &[u8; BYTES]) -> Sender
    ensures { result ≡ sender_set phrase bytes.now «sender» }
{
    Sender {
        offer: offer_set(sender.offer, phrase, bytes),
        position: position_set(sender.position, phrase),
        tries: tries_set(sender.tries, phrase),
    }
}

fn offer_set(offer: Offer, phrase: Phrase, bytes: &[u8; BYTES]) -> Offer
    ensures { result ≡ offer_set phrase bytes.now offer }
{
    Offer {
        channel: choose(
            phrase.command,
            table::SENDER_SET_CHANNEL,
            (phrase.first % 256) as u8,
            offer.channel,
        ),
        pid: choose(
            phrase.command,
            table::SENDER_SET_PID,
            bytes_at(0, bytes),
            offer.pid,
        ),
        version: choose(
            phrase.command,
            table::SENDER_SET_VERSION,
            bytes_at(0, bytes),
            offer.version,
        ),
        md5: choose(
            phrase.command,
            table::SENDER_SET_MD5,
            bytes_at(0, bytes),
            offer.md5,
        ),
        size: choose(
            phrase.command,
            table::SENDER_SET_SIZE,
            (phrase.first % 65536) as u16,
            offer.size,
        ),
        length: choose(
            phrase.command,
            table::SENDER_SET_LENGTH,
            phrase.first,
            offer.length,
        ),
    }
}

fn position_set(position: Position, phrase: Phrase) -> Position
    ensures { result ≡ position_set phrase position }
{
    Position {
        phase: phase_set(position.phase, phrase.command),
        place: choose(
            phrase.command,
            table::SENDER_SET_PLACE,
            phrase.first,
            position.place,
        ),
        number: choose(
            phrase.command,
            table::SENDER_SET_NUMBER,
            phrase.first,
            position.number,
        ),
    }
}

fn phase_set(old: Phase, command: usize) -> Phase
    ensures { result ≡ phase_set command old }
{
    match command {
        table::SENDER_SET_PHASE_ASKING => Phase::Asking,
        table::SENDER_SET_PHASE_TELLING => Phase::Telling,
        table::SENDER_SET_PHASE_PLACING => Phase::Placing,
        table::SENDER_SET_PHASE_SENDING => Phase::Sending,
        table::SENDER_SET_PHASE_ENDING => Phase::Ending,
        table::SENDER_SET_PHASE_DONE => Phase::Done,
        table::SENDER_SET_PHASE_GIVEN_UP => Phase::GivenUp,
        _ => old,
    }
}

fn tries_set(tries: Tries, phrase: Phrase) -> Tries
    ensures { result ≡ tries_set phrase tries }
{
    Tries {
        silences: choose(
            phrase.command,
            table::SENDER_SET_SILENCES,
            phrase.first,
            tries.silences,
        ),
        new_legs: choose(
            phrase.command,
            table::SENDER_SET_LEGS,
            phrase.first,
            tries.new_legs,
        ),
    }
}
