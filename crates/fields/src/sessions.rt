// A field of the session.
ghost use Rattle.std.specs.Prelude.{◌≡◌};
ghost use Rattle.fields.specs.Fields.{session_set, boards_set, transfer_set, phase_set, leg_set, progress_set, identity_set, check_set};

use crate::board::{placed, said};
use crate::choice::{bytes_at, choose, word};
use boards::board::Board;
use boards::list::MAX_BOARDS;
use image::check::Check;
use image::progress::Progress;
use phrases::phrase::{BYTES, Phrase};
use phrases::table;
use session::session::Session;
use transfer::identity::Identity;
use transfer::phase::Phase;
use transfer::state::{Leg, Transfer};

pub(crate) fn set(session: Session, phrase: Phrase, bytes: &[u8; BYTES]) -> Session
    ensures { result ≡ session_set phrase bytes.now session }
{
    Session {
        boards: boards_set(session.boards, phrase, bytes),
        count: choose(
            phrase.command,
            table::SET_BOARDS,
            phrase.first,
            session.count,
        ),
        opened: choose(
            phrase.command,
            table::SET_OPENED,
            phrase.first,
            session.opened,
        ),
        transfer: transfer_set(session.transfer, phrase, bytes),
    }
}

fn boards_set(
    boards: [Board; MAX_BOARDS],
    phrase: Phrase,
    bytes: &[u8; BYTES],
) -> [Board; MAX_BOARDS]
    ensures { result ≡ boards_set phrase bytes.now boards }
{
    if phrase.command == table::SET_BOARD {
        return placed(boards, phrase.first, said(phrase.second, bytes));
    }
    boards
}

fn transfer_set(transfer: Transfer, phrase: Phrase, bytes: &[u8; BYTES]) -> Transfer
    ensures { result ≡ transfer_set phrase bytes.now transfer }
{
    Transfer {
        leg: leg_set(transfer.leg, phrase),
        progress: progress_set(transfer.progress, phrase),
        image: identity_set(transfer.image, phrase, bytes),
        check: check_set(transfer.check, phrase, bytes),
    }
}

fn leg_set(leg: Leg, phrase: Phrase) -> Leg
    ensures { result ≡ leg_set phrase leg }
{
    Leg {
        phase: phase_set(leg.phase, phrase.command),
        channel: choose(
            phrase.command,
            table::SET_CHANNEL,
            (phrase.first % 256) as u8,
            leg.channel,
        ),
        agreed: choose(phrase.command, table::SET_AGREED, phrase.first, leg.agreed),
        next: choose(phrase.command, table::SET_NEXT, phrase.first, leg.next),
    }
}

fn phase_set(old: Phase, command: usize) -> Phase
    ensures { result ≡ phase_set command old }
{
    match command {
        table::SET_PHASE_IDLE => Phase::Idle,
        table::SET_PHASE_ASKED => Phase::Asked,
        table::SET_PHASE_TOLD => Phase::Told,
        table::SET_PHASE_RECEIVING => Phase::Receiving,
        table::SET_PHASE_DONE => Phase::Done,
        _ => old,
    }
}

fn progress_set(progress: Progress, phrase: Phrase) -> Progress
    ensures { result ≡ progress_set phrase progress }
{
    Progress {
        stored: choose(
            phrase.command,
            table::SET_STORED,
            phrase.first,
            progress.stored,
        ),
        last: choose(phrase.command, table::SET_LAST, phrase.first, progress.last),
    }
}

fn identity_set(image: Identity, phrase: Phrase, bytes: &[u8; BYTES]) -> Identity
    ensures { result ≡ identity_set phrase bytes.now image }
{
    Identity {
        channel: choose(
            phrase.command,
            table::SET_IMAGE_CHANNEL,
            (phrase.first % 256) as u8,
            image.channel,
        ),
        version: choose(
            phrase.command,
            table::SET_VERSION,
            bytes_at(0, bytes),
            image.version,
        ),
        announced: choose(
            phrase.command,
            table::SET_ANNOUNCED,
            phrase.first,
            image.announced,
        ),
        md5: choose(
            phrase.command,
            table::SET_MD5,
            bytes_at(0, bytes),
            image.md5,
        ),
        crc: choose(phrase.command, table::SET_CRC, word(bytes), image.crc),
    }
}

fn check_set(check: Check, phrase: Phrase, bytes: &[u8; BYTES]) -> Check
    ensures { result ≡ check_set phrase bytes.now check }
{
    Check {
        running: choose(
            phrase.command,
            table::SET_CHECKING,
            phrase.first != 0,
            check.running,
        ),
        read: choose(phrase.command, table::SET_READ, phrase.first, check.read),
        register: choose(
            phrase.command,
            table::SET_REGISTER,
            word(bytes),
            check.register,
        ),
    }
}
