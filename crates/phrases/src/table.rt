// The commands of docs/CONSOLE.md: the place of each, and what stands in its row.

// The longest name.
pub const NAME: usize = 25;

// So many bytes: any.
pub const ANY: usize = 65535;

pub const ROWS: usize = 58;

// A command: its name, filled up with spaces, and the name's length; how many numbers it takes, and the most that each can be; how many
// bytes (0: none).
#[derive(Clone, Copy)]
pub struct Row {
    pub name: [u8; NAME],
    pub name_length: usize,
    pub numbers: usize,
    pub first: usize,
    pub second: usize,
    pub bytes: usize,
}

// The place of each command.
pub const ROOM: usize = 0;

pub const AREA: usize = 1;

pub const IMAGE: usize = 2;

pub const WRITE_ROOM: usize = 3;

pub const WRITE_AREA: usize = 4;

pub const WRITE_IMAGE: usize = 5;

pub const BOARD: usize = 6;

pub const OPEN: usize = 7;

pub const FEED: usize = 8;

pub const QUIET: usize = 9;

pub const PORTION: usize = 10;

pub const REPORT: usize = 11;

pub const SHOW: usize = 12;

pub const SET_BOARDS: usize = 13;

pub const SET_BOARD: usize = 14;

pub const SET_OPENED: usize = 15;

pub const SET_HOLDING: usize = 16;

pub const SET_HELD: usize = 17;

pub const SET_PHASE_IDLE: usize = 18;

pub const SET_PHASE_ASKED: usize = 19;

pub const SET_PHASE_TOLD: usize = 20;

pub const SET_PHASE_RECEIVING: usize = 21;

pub const SET_PHASE_DONE: usize = 22;

pub const SET_CHANNEL: usize = 23;

pub const SET_AGREED: usize = 24;

pub const SET_NEXT: usize = 25;

pub const SET_STORED: usize = 26;

pub const SET_IMAGE_CHANNEL: usize = 27;

pub const SET_VERSION: usize = 28;

pub const SET_ANNOUNCED: usize = 29;

pub const SET_MD5: usize = 30;

pub const SET_CRC: usize = 31;

pub const SET_LAST: usize = 32;

pub const SET_CHECKING: usize = 33;

pub const SET_READ: usize = 34;

pub const SET_REGISTER: usize = 35;

pub const SENDER_OPEN: usize = 36;

pub const SENDER_REQUEST: usize = 37;

pub const SENDER_REPLY: usize = 38;

pub const SENDER_SILENCE: usize = 39;

pub const SENDER_SHOW: usize = 40;

pub const SENDER_SET_CHANNEL: usize = 41;

pub const SENDER_SET_PID: usize = 42;

pub const SENDER_SET_VERSION: usize = 43;

pub const SENDER_SET_MD5: usize = 44;

pub const SENDER_SET_SIZE: usize = 45;

pub const SENDER_SET_LENGTH: usize = 46;

pub const SENDER_SET_PHASE_ASKING: usize = 47;

pub const SENDER_SET_PHASE_TELLING: usize = 48;

pub const SENDER_SET_PHASE_PLACING: usize = 49;

pub const SENDER_SET_PHASE_SENDING: usize = 50;

pub const SENDER_SET_PHASE_ENDING: usize = 51;

pub const SENDER_SET_PHASE_DONE: usize = 52;

pub const SENDER_SET_PHASE_GIVEN_UP: usize = 53;

pub const SENDER_SET_PLACE: usize = 54;

pub const SENDER_SET_NUMBER: usize = 55;

pub const SENDER_SET_SILENCES: usize = 56;

pub const SENDER_SET_LEGS: usize = 57;
