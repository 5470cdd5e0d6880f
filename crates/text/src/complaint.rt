// Texts on standard error.

// Standard error's descriptor.
const STDERR: i32 = 2;

// Where standard error fails too there is nobody to tell.
pub fn say(text: &[u8]) {
    io::write_all(STDERR, text);
}
