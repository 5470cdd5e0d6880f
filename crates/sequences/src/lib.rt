#![tactic(auto)]

// What every protocol shares, and no protocol of its own: byte strings.
//
// - `part`: the front of some bytes, what stands behind it, and a part in between. A part past the end is the empty one.
// - `place`: bytes written to a place of lent memory, where nothing else changes, and copied from one.
// - `joined`: two slices read as one sequence.
// - `bounds`: the smaller and the larger of two bounds.
// - `compare`: byte strings compared as they stand.
// - `number`: numbers of several bytes, in both byte orders.
//
// Nothing here asks anything of its caller.
pub mod bounds;
pub mod compare;
pub mod joined;
pub mod number;
pub mod part;
pub mod place;
