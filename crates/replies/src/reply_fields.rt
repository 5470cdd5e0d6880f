// What the module's end reads in the controller's replies. Past the end of the data stand zeros; whether all of it is there `is_reply`
// tells first.
ghost use Rattle.std.specs.Prelude.{◌≡◌, get_or};
ghost use Rattle.replies.specs.ReplyFields.{is_reply, reply_channel, fields_fa, fields_fb, fields_fc, fields_state};

use commands::table;
use frames::buffer;
use sequences::number::{number16, number32};

// FA: may the image be sent (flag 0), in packets of at most `len2` bytes?
#[derive(Clone, Copy)]
pub struct ReplyFA {
    pub channel: u8,
    pub flag: u8,
    pub len2: usize,
}

// FB: is the image wanted (state 0), how much of it is stored, and what is the CRC-32 of that?
#[derive(Clone, Copy)]
pub struct ReplyFB {
    pub channel: u8,
    pub state: u8,
    pub stored: usize,
    pub crc: u32,
}

// FC: from where it is to be sent.
#[derive(Clone, Copy)]
pub struct ReplyFC {
    pub channel: u8,
    pub offset: usize,
}

// FD and FE.
#[derive(Clone, Copy)]
pub struct ReplyState {
    pub channel: u8,
    pub state: u8,
}

// Whether s is one whole frame and nothing else, with the command, version byte and data length of a reply to `command`.
pub fn is_reply(command: u8, s: &[u8]) -> bool
    ensures { result ≡ is_reply command s.now }
{
    let row = table::row_of(command);
    buffer::alone(s)
        && buffer::command(s) == command
        && buffer::version(s) == row.reply_version
        && buffer::data(s).len() == row.reply_length
}

// Every reply begins with the channel.
pub fn channel(d: &[u8]) -> u8
    ensures { result ≡ reply_channel d.now }
{
    byte(d, 0)
}

#[tactic(auto, unfolding(crate::specs::ReplyFields::fields_fa))]
pub fn fa(d: &[u8]) -> ReplyFA
    ensures { result ≡ fields_fa d.now }
{
    ReplyFA {
        channel: byte(d, 0),
        flag: byte(d, 1),
        len2: number16(byte(d, 5), byte(d, 6)),
    }
}

#[tactic(auto, unfolding(crate::specs::ReplyFields::fields_fb))]
pub fn fb(d: &[u8]) -> ReplyFB
    ensures { result ≡ fields_fb d.now }
{
    ReplyFB {
        channel: byte(d, 0),
        state: byte(d, 1),
        stored: number32(byte(d, 2), byte(d, 3), byte(d, 4), byte(d, 5)),
        crc: number32(byte(d, 6), byte(d, 7), byte(d, 8), byte(d, 9)) as u32,
    }
}

#[tactic(auto, unfolding(crate::specs::ReplyFields::fields_fc))]
pub fn fc(d: &[u8]) -> ReplyFC
    ensures { result ≡ fields_fc d.now }
{
    ReplyFC {
        channel: byte(d, 0),
        offset: number32(byte(d, 1), byte(d, 2), byte(d, 3), byte(d, 4)),
    }
}

#[tactic(auto, unfolding(crate::specs::ReplyFields::fields_state))]
pub fn state(d: &[u8]) -> ReplyState
    ensures { result ≡ fields_state d.now }
{
    ReplyState {
        channel: byte(d, 0),
        state: byte(d, 1),
    }
}

fn byte(d: &[u8], i: usize) -> u8
    ensures { result ≡ get_or d.now i 0 }
{
    d.get(i).copied().unwrap_or(0)
}
