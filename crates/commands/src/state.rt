// The states in the controller's replies, by command, with document 01's words. They stand in the place of FA's flag too. `specs/States`
// has the same numbers. Bytes, not enums: `replies` writes and reads any byte in that place, and the promises of both say so.
// Every command that has a state: granted; FE: the image is whole and its CRC-32 is right.
pub const GRANTED: u8 = 0;

// "Flag 1 if the board has no permit or Len1 is below 16"
pub const FA_DENIED: u8 = 1;

// "PID differs"
pub const FB_OTHER_PID: u8 = 1;

// "version not above the board's soft one"
pub const FB_OLD_VERSION: u8 = 2;

// "length 0 or above the area's"; FB has no greater state
pub const FB_BAD_LENGTH: u8 = 3;

// "number is not the next"
pub const FD_OTHER_NUMBER: u8 = 1;

// "n differs from L - 7, or n is 0, or above the agreed size, or stored + n above announced"
pub const FD_BAD_SIZE: u8 = 2;

// "CRC-16 wrong"
pub const FD_BAD_CRC: u8 = 3;

// "not receiving or not the session's channel"; FD has no greater state
pub const FD_NOT_RECEIVING: u8 = 4;

// "Stored is not announced"
pub const FE_INCOMPLETE: u8 = 1;

// "State 02 of the page is never sent."
pub const FE_NEVER_SENT: u8 = 2;

// "Not receiving or done, or another channel"; "CRC-32 of the area's first announced bytes differs"; FE has no greater state
pub const FE_REFUSED: u8 = 3;
