// The number that decimal digits say.
ghost use Rattle.std.specs.Prelude.{◌≡◌};
ghost use Rattle.text.specs.Numbers.{digit_said, number_said};

const MOST_DIGITS: usize = 5;

// The number that 1 to 5 digits say, if these bytes are such digits.
pub fn number(digits: &[u8]) -> Option<usize>
    ensures { result ≡ number_said digits.now }
{
    if digits.is_empty() || MOST_DIGITS < digits.len() {
        return None;
    }
    let mut n = 0;
    for b in digits {
        n = 10 * n + digit(*b)?;
    }
    Some(n)
}

// What a digit says.
fn digit(b: u8) -> Option<usize>
    ensures { result ≡ digit_said b }
{
    if b.is_ascii_digit() {
        Some((b - b'0') as usize)
    } else {
        None
    }
}
