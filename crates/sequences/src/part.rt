// Parts of some bytes. Chosen by `if`: by the library's `min` a part took 1.8 times as long.
ghost use Rattle.std.specs.Prelude.{◌≡◌, take, drop};
ghost use Rattle.std.proofs.Math.Seq.{slice};
ghost use Rattle.sequences.specs.Comparing.{begins_with};

// The first n bytes of s, or all where it has fewer.
pub fn front(s: &[u8], n: usize) -> &[u8]
    ensures { result.now ≡ take n s.now }
{
    if n < s.len() { &s[..n] } else { s }
}

// What stands in s behind its first n bytes.
pub fn behind(s: &[u8], n: usize) -> &[u8]
    ensures { result.now ≡ drop n s.now }
{
    if n < s.len() { &s[n..] } else { &s[..0] }
}

// The n bytes of s from `from` on, or as many as there are.
pub fn part(s: &[u8], from: usize, n: usize) -> &[u8]
    ensures { result.now ≡ take n (drop from s.now) }
{
    front(behind(s, from), n)
}

// What of s stands from place `from` up to place `to`.
pub fn between(s: &[u8], from: usize, to: usize) -> &[u8]
    ensures { result.now ≡ slice from to s.now }
{
    behind(front(s, to), from)
}

// Whether s begins with these bytes. By `==`: the library's `starts_with` is slower where the first byte tells.
#[tactic(auto, using(crate::proofs::Sames::equality_is_same))]
pub fn begins(s: &[u8], bytes: &[u8]) -> bool
    ensures { result ≡ begins_with s.now bytes.now }
{
    front(s, bytes.len()) == bytes
}
