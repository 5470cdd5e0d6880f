// The sender's offer as a phrase says it: channel(1), PID(8), version(3), MD5(16), and the packet size.
ghost use Rattle.std.specs.Prelude.{◌≡◌};
ghost use Rattle.fields.specs.SenderFields.{offer_said};

use crate::choice::bytes_at;
use phrases::phrase::BYTES;
use sender::sender::Offer;

// Of an image of so many bytes.
pub fn said(size: usize, bytes: &[u8; BYTES], length: usize) -> Offer
    ensures { result ≡ offer_said size bytes.now length }
{
    Offer {
        channel: bytes[0],
        pid: bytes_at(1, bytes),
        version: bytes_at(9, bytes),
        md5: bytes_at(12, bytes),
        size: (size % 65536) as u16,
        length,
    }
}
