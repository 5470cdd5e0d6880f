#![tactic(auto)]

// The controller's side of the firmware service: the record, and the calls on it.
//
// - `record::Record` is everything that is kept between calls, by value: the reader with its held bytes, and the session.
// - `Record::open` makes one; a refused opening hands back the all-zero record, which every call refuses with 9.
// - `Record::feed` is given new bytes from the line, `Record::quiet` is told that none come. Each ends at its first frame, answers it,
//   and hands back outcome, counts and the next record; the reply stands at the front of the room.
// - `Record::is_checking` tells whether an end check runs; an FE starts it. `Record::portion` goes on with it by at most a given number
//   of bytes; with the last byte come the verdict and the reply to FE.
// - `Record::report` writes the outward F9.
//
// No call asks anything of its caller: any record, any bytes, any room and any memory lent as the area are answered or refused.
pub mod call;
pub mod open;
pub mod portion;
pub mod record;
pub mod report;
