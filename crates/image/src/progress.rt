// How much of an image stands in its area.
ghost use Rattle.std.specs.Prelude.{◌≡◌, length};
ghost use Rattle.crc.specs.Crc.{checksum, crc32};
ghost use Rattle.sequences.specs.Places.{written_at};
ghost use Rattle.image.specs.Progresses.{first_stored, progress_from, storing, is_last};

use sequences::bounds::past;
use sequences::part::{front, part};
use sequences::place;

#[derive(Clone, Copy)]
pub struct Progress {
    // How many bytes of the image stand at the front of the area.
    pub stored: usize,
    // The length of the packet taken last in this leg; 0 where there is none.
    pub last: usize,
}

impl Progress {
    // A leg that begins with so much stored: no packet is the last one yet.
    pub fn from(stored: usize) -> Progress
        ensures { result ≡ progress_from stored }
    {
        Progress { stored, last: 0 }
    }

    // Writes the next bytes and counts them; where they do not fit into the area neither.
    pub fn store(self, bytes: &[u8], area: &mut [u8]) -> Progress
        ensures { (result ≡ storing self bytes.now area.old) ×
            (area.new ≡ written_at area.old self.stored bytes.now) }
    {
        let n = bytes.len();
        let at = self.stored;
        if n <= area.len() && at <= area.len() - n {
            place::write(area, at, bytes);
            Progress {
                stored: at + n,
                last: n,
            }
        } else {
            self
        }
    }

    // Whether these are the bytes of the packet taken last, as they stand in the area.
    pub fn is_last(self, bytes: &[u8], area: &[u8]) -> bool
        ensures { result ≡ is_last self bytes.now area.now }
    {
        self.last != 0
            && bytes.len() == self.last
            && bytes == part(area, past(self.stored, self.last), self.last)
    }

    // The CRC-32 of what is stored.
    pub fn checksum(self, area: &[u8]) -> u32
        ensures { result ≡ checksum crc32 (first_stored self area.now) }
    {
        crc32::checksum(front(area, self.stored))
    }
}
