// The module's requests as frames, as the module's end sends them. Fields stand in the order of the table, and the version byte is the
// table's.
ghost use Rattle.std.specs.Prelude.{◌≡◌, [], take};
ghost use Rattle.frames.specs.Finished.{finished};
ghost use Rattle.commands.specs.Limits.{max_packet};
ghost use Rattle.requests.specs.RequestFrames.{data_fa, data_fb, data_fc, data_fd, data_fe, request_frame};

use crate::request::{RequestFA, RequestFB, RequestFC, RequestFD};
use commands::limits::MAX_PACKET;
use commands::table;
use frames::finished::FinishedFrame;
use sequences::number::{bytes16, bytes32};
use sequences::part::front;

pub fn fa(r: RequestFA) -> FinishedFrame
    ensures { result ≡ finished (request_frame 0xFA (data_fa r)) }
{
    empty(table::FA).with(&[r.channel]).with(&bytes16(r.len1))
}

pub fn fb(r: RequestFB) -> FinishedFrame
    ensures { result ≡ finished (request_frame 0xFB (data_fb r)) }
{
    empty(table::FB)
        .with(&[r.channel])
        .with(&r.pid)
        .with(&r.version)
        .with(&r.md5)
        .with(&bytes32(r.length))
        .with(&bytes32(r.crc as usize))
}

pub fn fc(r: RequestFC) -> FinishedFrame
    ensures { result ≡ finished (request_frame 0xFC (data_fc r)) }
{
    empty(table::FC).with(&[r.channel]).with(&bytes32(r.offset))
}

// Of the packet as many bytes as a packet can have.
pub fn fd(r: RequestFD, packet: &[u8]) -> FinishedFrame
    ensures { result ≡ finished (request_frame 0xFD (data_fd r (take max_packet packet.now))) }
{
    empty(table::FD)
        .with(&[r.channel])
        .with(&bytes16(r.number))
        .with(&bytes16(r.size))
        .with(&bytes16(r.crc))
        .with(front(packet, MAX_PACKET))
}

pub fn fe(channel: u8) -> FinishedFrame
    ensures { result ≡ finished (request_frame 0xFE (data_fe channel)) }
{
    empty(table::FE).with(&[channel])
}

fn empty(command: u8) -> FinishedFrame
    ensures { result ≡ finished (request_frame command []) }
{
    let row = table::row_of(command);
    FinishedFrame::empty(row.version, command)
}
