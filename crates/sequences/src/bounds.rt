// Bounds of parts.
ghost use Rattle.std.specs.Prelude.{◌≡◌, ◌+◌, ◌-◌};

// The smaller of i and n.
pub fn smaller(i: usize, n: usize) -> usize
    ensures { result ≡ i - (i - n) }
{
    i.min(n)
}

// The larger of i and n.
pub fn larger(i: usize, n: usize) -> usize
    ensures { result ≡ n + (i - n) }
{
    i.max(n)
}

// How far i is past n; 0 where it is not.
pub fn past(i: usize, n: usize) -> usize
    ensures { result ≡ i - n }
{
    i.saturating_sub(n)
}
