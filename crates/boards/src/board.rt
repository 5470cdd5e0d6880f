// A board that images can be sent to.
#[derive(Clone, Copy, PartialEq, Eq)]
pub struct Board {
    pub channel: u8,
    pub soft: [u8; 3],
    pub hard: [u8; 3],
    pub pid: [u8; 8],
    pub permit: bool,
}
