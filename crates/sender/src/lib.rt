#![tactic(auto)]

// The module's end: it writes the requests of an image one at a time and judges the controller's replies.
//
// - `sender::Sender` is the record: the offer, which never changes, the position and the tries. It goes in by value and comes back by
//   value; the image is lent to every call.
// - `Sender::open` makes it. `request` writes the request that the record stands at: the same record and image give the same bytes.
// - `reply` judges a reply, `silence` tells that none came. Both give a decision, go on, send again, new leg, done or given up, and
//   the next record.
//
// It sees a reply as one whole frame; finding frames in a stream is the frame reader's work. docs/SENDER.md has the exact rules. No
// version byte, length or offset of a field stands here: they are those of `commands`, `requests` and `replies`.
pub mod decision;
pub mod opening;
pub mod phase;
mod reply;
pub mod request;
mod rules;
pub mod sender;
mod silence;
