// The frames under way, both ways together, in the order in which they were sent.
ghost use Rattle.std.specs.Prelude.{◌≡◌, ◌+◌, ◌%◌, ◌<◌};
ghost use Rattle.link.specs.Links.{places, place_start, bytes_at, no_frames, frame_under_way, with_sent, with_bytes, sent_link};
ghost use Rattle.link.specs.Links.{sent_memory, passed};

use crate::frame::{Frame, SIZE, Way};
use sequences::place;

// How many frames can be under way.
pub const PLACES: usize = 64;

// The length of the memory that holds them, each at its place: as `io::large_buffer` gives.
pub const MEMORY: usize = 65536;

// Of a frame at a place all but its bytes: these stand in lent memory, as a link with 64 whole frames is too much to copy at each call.
#[derive(Clone, Copy)]
pub struct Head {
    pub way: Way,
    pub length: usize,
}

// The frames stand from place `first` on; after the last place comes the first.
#[derive(Clone, Copy)]
pub struct Link {
    pub first: usize,
    pub count: usize,
    pub heads: [Head; PLACES],
}

impl Link {
    pub fn empty() -> Link
        ensures { result ≡ no_frames }
    {
        Link {
            first: 0,
            count: 0,
            heads: [Head {
                way: Way::ToController,
                length: 0,
            }; PLACES],
        }
    }

    // With a frame behind the others; as it is, and the memory too, where all places are taken.
    pub fn with(self, frame: Frame, memory: &mut [u8; MEMORY]) -> Link
        ensures value { result ≡ sent_link self frame }
        ensures memory_after { memory.new ≡ sent_memory self frame memory.old }
    {
        if self.count < PLACES {
            self.placed(frame, memory)
        } else {
            self
        }
    }

    fn placed(mut self, frame: Frame, memory: &mut [u8; MEMORY]) -> Link
        requires { self.count < places }
        ensures value { result ≡ with_sent self frame }
        ensures memory_after { memory.new ≡ with_bytes self frame memory.old }
    {
        let at = place(self.first, self.count);
        place::write(memory, start(at), &frame.bytes);
        self.heads[at] = Head {
            way: frame.way,
            length: frame.length,
        };
        self.count += 1;
        self
    }

    // The frame that arrives next.
    pub fn oldest(self, memory: &[u8; MEMORY]) -> Frame
        ensures { result ≡ frame_under_way self memory.now 0 }
    {
        let at = place(self.first, 0);
        let head = self.heads[at];
        Frame {
            way: head.way,
            bytes: kept(at, memory),
            length: head.length,
        }
    }

    // The oldest has arrived; without frames nothing changes.
    pub fn without_oldest(mut self) -> Link
        ensures { result ≡ passed self }
    {
        if self.count == 0 {
            return self;
        }
        self.first = place(self.first, 1);
        self.count -= 1;
        self
    }
}

// The place i places behind another.
fn place(first: usize, i: usize) -> usize
    ensures { (result ≡ (first + i) % places) × (result < places) }
{
    first.wrapping_add(i) % PLACES
}

// Where the bytes at a place begin.
fn start(place: usize) -> usize
    requires { place < places }
    ensures { result ≡ place_start place }
{
    place * SIZE
}

fn kept(at: usize, memory: &[u8; MEMORY]) -> [u8; SIZE]
    requires { at < places }
    ensures { result ≡ bytes_at memory.now at }
{
    let mut bytes = [0u8; SIZE];
    place::copy_out(memory, start(at), &mut bytes);
    bytes
}
