// Numbers of several bytes, each by its type's own conversion. A number's bytes are named from the high one to the low one; which comes
// first is the caller's order.
ghost use Rattle.std.specs.Prelude.{◌≡◌, ◌<◌};
ghost use Rattle.sequences.specs.Numbers.{max16, max32, number16, number32, bytes16, bytes32, low_first16, low_first32};

pub fn number16(high: u8, low: u8) -> usize
    ensures { (result ≡ number16 high low) × (result < max16) }
{
    u16::from_be_bytes([high, low]) as usize
}

pub fn number32(a: u8, b: u8, c: u8, d: u8) -> usize
    ensures { (result ≡ number32 a b c d) × (result < max32) }
{
    u32::from_be_bytes([a, b, c, d]) as usize
}

// The last two bytes of x, high byte first.
pub fn bytes16(x: usize) -> [u8; 2]
    ensures { result ≡ bytes16 x }
{
    ((x % 65536) as u16).to_be_bytes()
}

// The last four.
pub fn bytes32(x: usize) -> [u8; 4]
    ensures { result ≡ bytes32 x }
{
    ((x % 4294967296) as u32).to_be_bytes()
}

// The last two bytes of x, low byte first.
pub fn low_first16(x: usize) -> [u8; 2]
    ensures { result ≡ low_first16 x }
{
    ((x % 65536) as u16).to_le_bytes()
}

// The last four.
pub fn low_first32(x: usize) -> [u8; 4]
    ensures { result ≡ low_first32 x }
{
    ((x % 4294967296) as u32).to_le_bytes()
}
