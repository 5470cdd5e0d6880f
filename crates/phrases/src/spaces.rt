// Spaces between the parts of a line.
ghost use Rattle.std.specs.Prelude.{◌≡◌, ◌+◌, not, drop};
ghost use Rattle.std.specs.List.{position};
ghost use Rattle.phrases.specs.Spaces.{is_space, spaces};

use sequences::part::behind;

// How many stand at the front of s.
pub fn spaces(s: &[u8]) -> usize
    ensures { result ≡ spaces s.now }
{
    first_other(s).unwrap_or(s.len())
}

// The place of the first other byte.
fn first_other(s: &[u8]) -> Option<usize>
    ensures { result ≡ position (λ b. not (is_space b)) s.now }
{
    s.iter().position(|b| *b != b' ')
}

// The place behind those that stand from place `at` on.
pub fn spaces_end(s: &[u8], at: usize) -> usize
    ensures { result ≡ at + spaces (drop at s.now) }
{
    at + spaces(behind(s, at))
}
