// What live reading keeps, and what a call of it hands back. The calls are in `live`.
use crate::finished::FinishedFrame;
use fronts::MAX_FRAME;

// The first `count` of `held` are the held bytes.
#[derive(Clone, Copy)]
pub struct Reader {
    pub held: [u8; MAX_FRAME],
    pub count: usize,
}

// What a call hands back: the reader, advanced; how many new bytes it took and how many bytes it dropped; and the frame that it
// ended at. Without one `frame` is all zero.
#[derive(Clone, Copy)]
pub struct Fed {
    pub next: Reader,
    pub taken: usize,
    pub dropped: usize,
    pub found: bool,
    pub frame: FinishedFrame,
}
