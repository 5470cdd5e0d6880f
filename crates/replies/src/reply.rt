// The data of the controller's replies, and a reply as a frame. Data comes in an array of the longest reply's size, zeros past it.
ghost use Rattle.std.specs.Prelude.{◌≡◌, ◌≤◌};
ghost use Rattle.sequences.specs.Padding.{padded, zeros};
ghost use Rattle.commands.specs.Limits.{max_reply};
ghost use Rattle.replies.specs.Replies.{reply_fa, reply_fb, reply_fc, reply_state, ReplyWritten};

use commands::limits::{MAX_PACKET, MAX_REPLY};
use commands::table;
use frames::writer;
use sequences::number::{bytes16, bytes32};

pub fn none() -> [u8; MAX_REPLY]
    ensures { result ≡ zeros max_reply }
{
    [0; MAX_REPLY]
}

#[tactic(auto, unfolding(crate::specs::Replies::reply_fa))]
pub fn fa(channel: u8, flag: u8, version: [u8; 3]) -> [u8; MAX_REPLY]
    ensures { result ≡ padded max_reply (reply_fa channel flag version) }
{
    let [first, second, third] = version;
    let [high, low] = bytes16(MAX_PACKET);
    padded([channel, flag, first, second, third, high, low])
}

// The MD5 field is not used by the maker: zeros.
#[tactic(auto, unfolding(crate::specs::Replies::reply_fb))]
pub fn fb(channel: u8, state: u8, stored: usize, crc: u32) -> [u8; MAX_REPLY]
    ensures { result ≡ padded max_reply (reply_fb channel state stored crc) }
{
    let s = bytes32(stored);
    let c = bytes32(crc as usize);
    padded([
        channel, state, s[0], s[1], s[2], s[3], c[0], c[1], c[2], c[3],
    ])
}

#[tactic(auto, unfolding(crate::specs::Replies::reply_fc))]
pub fn fc(channel: u8, offset: usize) -> [u8; MAX_REPLY]
    ensures { result ≡ padded max_reply (reply_fc channel offset) }
{
    let o = bytes32(offset);
    padded([channel, o[0], o[1], o[2], o[3]])
}

// FD's and FE's reply.
#[tactic(auto, unfolding(crate::specs::Replies::reply_state))]
pub fn state(channel: u8, state: u8) -> [u8; MAX_REPLY]
    ensures { result ≡ padded max_reply (reply_state channel state) }
{
    padded([channel, state])
}

// These bytes, and zeros past them.
fn padded<const N: usize>(bytes: [u8; N]) -> [u8; MAX_REPLY]
    requires { N ≤ max_reply }
    ensures { result ≡ padded max_reply bytes.entry }
{
    let mut data = none();
    data[..N].copy_from_slice(&bytes);
    data
}

// Writes the reply to a command to the front of room and gives its size. A command that has no reply gives 0 and writes nothing, and
// so does a room that is too short.
pub fn write(command: u8, data: [u8; MAX_REPLY], room: &mut [u8]) -> usize
    ensures { ReplyWritten command «data» room.old result room.new }
{
    let row = table::row_of(command);
    let n = row.reply_length;
    if n == 0 {
        return 0;
    }
    writer::write(row.reply_version, command, &data[..n], room)
}
