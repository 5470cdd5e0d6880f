// A frame by value, with the way that it goes.

// The longest frame.
pub const SIZE: usize = 526;

#[derive(Clone, Copy, PartialEq, Eq)]
pub enum Way {
    ToController,
    ToSender,
}

// Its first `length` bytes.
#[derive(Clone, Copy)]
pub struct Frame {
    pub way: Way,
    pub bytes: [u8; SIZE],
    pub length: usize,
}
