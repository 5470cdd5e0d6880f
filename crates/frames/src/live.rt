// Live reading: bytes are fed as they come, and each call ends at its first whole frame. What may still become a frame stays held.
ghost use Rattle.std.specs.Prelude.{◌≡◌, ◌≤◌, take};
ghost use Rattle.fronts.specs.Frame.{max_frame};
ghost use Rattle.frames.specs.LiveReading.{feeding_call, quiet_call, handed_back, fed, quieted};

use crate::reader::{Fed, Reader};
use crate::{result, scan};
use fronts::MAX_FRAME;

impl Reader {
    // Feeds the bytes of input, of which the call takes as many as it needs. A reader whose count is too large is handed back as it
    // is; any other comes back with zeros past the held bytes.
    pub fn feed(self, input: &[u8]) -> Fed
        ensures { result ≡ fed self input.now }
    {
        // A guard and no value of an if: a value of this size would be copied once more.
        if MAX_FRAME < self.count {
            return result::refused(self);
        }
        feed_held(&self.held, self.count, input)
    }

    // Tells that no byte is to come: what is held and is no whole frame is dropped. The call, too, ends at its first frame.
    pub fn quiet(self) -> Fed
        ensures { result ≡ quieted self }
    {
        if MAX_FRAME < self.count {
            return result::refused(self);
        }
        quiet_held(&self.held, self.count)
    }
}

fn feed_held(held: &[u8; MAX_FRAME], count: usize, input: &[u8]) -> Fed
    requires { count ≤ max_frame }
    ensures { result ≡ handed_back (feeding_call input.now (take count held.now) 0 0) }
{
    let a = &held[..count];
    let s = scan::feeding(a, input);
    result::stopped(a, input, s)
}

fn quiet_held(held: &[u8; MAX_FRAME], count: usize) -> Fed
    requires { count ≤ max_frame }
    ensures { result ≡ handed_back (quiet_call (take count held.now) 0) }
{
    let a = &held[..count];
    let s = scan::quiet(a);
    result::stopped(a, &a[..0], s)
}
