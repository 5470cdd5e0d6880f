// How far one call of live reading goes: over the held bytes a and the new bytes b, read as one sequence with two positions. What is
// held stands from `from` to `to`; what is dropped is passed by `from`, what is taken by `to`.
ghost use Rattle.std.specs.Prelude.{◌≤◌, [], length};
ghost use Rattle.fronts.specs.Frame.{max_frame};
ghost use Rattle.frames.specs.LiveReading.{feeding_call, quiet_call};
ghost use Rattle.frames.specs.Scans.{Scanned};

use crate::search::{next_head, next_head_of};
use fronts::front::{Front, front_at, missing};
use sequences::bounds::{larger, smaller};

// Where a call stops, and whether a whole frame stands there. The positions hold either way, so no Option carries them.
#[derive(Clone, Copy)]
pub struct Scan {
    pub from: usize,
    pub to: usize,
    pub found: bool,
}

// A feeding call: a dead front loses its first byte and all those behind it at which no frame begins, held or new; an open one takes new
// bytes up to its next test.
pub(crate) fn feeding(a: &[u8], b: &[u8]) -> Scan
    requires { length a.now ≤ max_frame }
    ensures { Scanned (feeding_call b.now a.now 0 0) a.now b.now result }
{
    let held = a.len();
    let all = held + b.len();
    let mut from = 0;
    let mut to = held;
    loop {
        match front_at(a, b, from, to) {
            Front::Whole => {
                return Scan {
                    from,
                    to,
                    found: true,
                };
            }
            Front::Dead => {
                from = next_head_of(a, b, from + 1);
                to = larger(from, to);
            }
            Front::Open => {
                if to == all {
                    return Scan {
                        from,
                        to: all,
                        found: false,
                    };
                }
                to += smaller(missing(a, b, from, to), all - to);
            }
        }
    }
}

// A quiet call: any front that is not whole loses its first byte and all those behind it at which no frame begins.
pub(crate) fn quiet(a: &[u8]) -> Scan
    requires { length a.now ≤ max_frame }
    ensures { Scanned (quiet_call a.now 0) a.now [] result }
{
    let mut at = 0;
    let n = a.len();
    while at < n {
        if front_at(a, &a[..0], at, n) == Front::Whole {
            return Scan {
                from: at,
                to: n,
                found: true,
            };
        }
        at = next_head(a, at + 1, n);
    }
    Scan {
        from: at,
        to: n,
        found: false,
    }
}
