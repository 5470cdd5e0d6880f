// Which image a transfer is of.
ghost use Rattle.std.specs.Prelude.{◌≡◌};
ghost use Rattle.transfer.specs.Identities.{no_identity};

#[derive(Clone, Copy, PartialEq, Eq)]
pub struct Identity {
    pub channel: u8,
    pub version: [u8; 3],
    pub announced: usize,
    pub md5: [u8; 16],
    pub crc: u32,
}

impl Identity {
    pub fn none() -> Identity
        ensures { result ≡ no_identity }
    {
        Identity {
            channel: 0,
            version: [0; 3],
            announced: 0,
            md5: [0; 16],
            crc: 0,
        }
    }
}
