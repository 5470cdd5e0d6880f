#![tactic(auto)]

// The image in its area, whatever protocol brings it: how much of it is stored, and whether what stands there is the announced one.
//
// - `progress::Progress`: how many bytes are stored, and the packet taken last. `store` writes the next bytes and counts them, both or
//   neither.
// - `check::Check`: the end check. It reads the image back in portions, so that no call has to take long, and comes to the same as in
//   one go.
//
// The area is lent, and no command is known here. Nothing is asked of the caller.
pub mod check;
pub mod progress;
