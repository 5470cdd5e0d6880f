// The fields of the module's requests, read from a frame's data. Every request but F9 begins with the channel.
ghost use Rattle.std.specs.Prelude.{◌≡◌, ◌+◌, ◌≤◌};
ghost use Rattle.fronts.specs.Frame.{max_data};
ghost use Rattle.sequences.specs.Fields.{field_at};
ghost use Rattle.requests.specs.Requests.{channel_of, request_fa, request_fb, request_fc, request_fd, packet_of, packet_place};

use fronts::MAX_DATA;
use sequences::number::{number16, number32};

// FA: may an image be sent, in packets of at most `len1` bytes?
#[derive(Clone, Copy)]
pub struct RequestFA {
    pub channel: u8,
    pub len1: usize,
}

// FB: which image it is.
#[derive(Clone, Copy)]
pub struct RequestFB {
    pub channel: u8,
    pub pid: [u8; 8],
    pub version: [u8; 3],
    pub md5: [u8; 16],
    pub length: usize,
    pub crc: u32,
}

// FC: from where it is sent.
#[derive(Clone, Copy)]
pub struct RequestFC {
    pub channel: u8,
    pub offset: usize,
}

// FD: a packet's number, size and CRC-16. Its bytes stand behind them: `packet`.
#[derive(Clone, Copy)]
pub struct RequestFD {
    pub channel: u8,
    pub number: usize,
    pub size: usize,
    pub crc: usize,
}

// Where FB's fields begin.
const PID: usize = 1;

const VERSION: usize = 9;

const MD5: usize = 12;

const LENGTH: usize = 28;

const CRC: usize = 32;

// Where FD's bytes begin.
const PACKET: usize = 7;

pub fn channel(d: &[u8; MAX_DATA]) -> u8
    ensures { result ≡ channel_of d.now }
{
    d[0]
}

#[tactic(auto, unfolding(crate::specs::Requests::request_fa))]
pub fn fa(d: &[u8; MAX_DATA]) -> RequestFA
    ensures { result ≡ request_fa d.now }
{
    RequestFA {
        channel: d[0],
        len1: number16(d[1], d[2]),
    }
}

#[tactic(auto, unfolding(crate::specs::Requests::request_fb))]
pub fn fb(d: &[u8; MAX_DATA]) -> RequestFB
    ensures { result ≡ request_fb d.now }
{
    RequestFB {
        channel: d[0],
        pid: field(d, PID),
        version: field(d, VERSION),
        md5: field(d, MD5),
        length: number32(d[LENGTH], d[LENGTH + 1], d[LENGTH + 2], d[LENGTH + 3]),
        crc: number32(d[CRC], d[CRC + 1], d[CRC + 2], d[CRC + 3]) as u32,
    }
}

#[tactic(auto, unfolding(crate::specs::Requests::request_fc))]
pub fn fc(d: &[u8; MAX_DATA]) -> RequestFC
    ensures { result ≡ request_fc d.now }
{
    RequestFC {
        channel: d[0],
        offset: number32(d[1], d[2], d[3], d[4]),
    }
}

#[tactic(auto, unfolding(crate::specs::Requests::request_fd))]
pub fn fd(d: &[u8; MAX_DATA]) -> RequestFD
    ensures { result ≡ request_fd d.now }
{
    RequestFD {
        channel: d[0],
        number: number16(d[1], d[2]),
        size: number16(d[3], d[4]),
        crc: number16(d[5], d[6]),
    }
}

// The packet's bytes in an FD of so much data, as that part of it; none where that is too little for an FD or too much for a frame.
pub fn packet(d: &[u8; MAX_DATA], length: usize) -> &[u8]
    ensures result_value { result.now ≡ packet_of length d.now }
    ensures ref_ptr_value { (result.ref_ptr.0 ≡ d.entry.ref_ptr.0) × (result.ref_ptr.1 ≡ packet_place length + d.entry.ref_ptr.1) }
{
    if length < PACKET || MAX_DATA < length {
        return &d[..0];
    }
    &d[PACKET..length]
}

// The bytes of a field that begins at this place.
fn field<const N: usize>(d: &[u8; MAX_DATA], at: usize) -> [u8; N]
    requires { at + N ≤ max_data }
    ensures { result ≡ field_at at N d.now }
{
    let mut bytes = [0; N];
    bytes.copy_from_slice(&d[at..at + N]);
    bytes
}
