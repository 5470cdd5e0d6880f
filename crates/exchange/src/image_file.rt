// The image to send.
ghost use Rattle.std.specs.Prelude.{◌≡◌, ◌<◌, ◌≤◌, IfSome, None, length};

use crate::arguments::argument;
use sequences::part::behind;
use sequences::place;
use std::fs::File;
use std::io::Read;
use std::{io, str};
use text::complaint::say;
use words::complaint;

// The most bytes of an image: as many as the buffer has.
pub const MAX_IMAGE: usize = 65536;

// Puts the image to the front of the buffer and answers its length: the file that the word at this place names, or a text where there
// is no such word. An image that cannot be had is told, and is None.
pub(crate) fn load(
    rt: &HostRuntime,
    place: Option<usize>,
    word: &mut [u8],
    image: &mut [u8; MAX_IMAGE],
) -> Option<usize>
    ensures { IfSome result (λ n. 0 < n) }
{
    match place {
        Some(i) => {
            let n = argument(rt, i, word);
            load_file(rt, &word[..n], image)
        }
        None => Some(place::copy(b"Umarigwebo edge cabinet firmware, v1.0.3", image)),
    }
}

fn load_file(rt: &HostRuntime, word: &[u8], image: &mut [u8]) -> Option<usize>
    ensures { IfSome result (λ n. 0 < n) }
{
    match open(rt, behind(word, b"image=".len())) {
        Ok(mut file) => {
            let n = read_full(&mut file, image);
            judged(rt, &mut file, n, word)
        }
        Err(error) => unreadable(rt, &error, word),
    }
}

// A path is text: a file with another name cannot be named here.
fn open(rt: &HostRuntime, path: &[u8]) -> io::Result<File> {
    match str::from_utf8(path) {
        Ok(text) => File::open(rt, text),
        Err(_) => Err(io::Error::from(io::ErrorKind::InvalidFilename)),
    }
}

// Reads until the buffer is full, the file ends or a read fails, and answers how many bytes were put to its front.
fn read_full(file: &mut File, image: &mut [u8]) -> usize
    ensures { result ≤ length image.new }
{
    let mut done = 0;
    while done < image.len() {
        let n = read_once(&mut *file, &mut image[done..]);
        if n == 0 {
            break;
        }
        done += n;
    }
    done
}

fn read_once(file: &mut File, rest: &mut [u8]) -> usize
    ensures { result ≤ length rest.new }
{
    file.read(rest).unwrap_or(0)
}

// The length of an image of which n bytes were read. That stopped at the file's end, at a failure, or where the buffer was full: one
// read more tells which.
fn judged(rt: &HostRuntime, file: &mut File, n: usize, word: &[u8]) -> Option<usize>
    ensures { IfSome result (λ n. 0 < n) }
{
    let mut more = [0u8; 1];
    match file.read(&mut more) {
        Ok(0) if 0 < n => Some(n),
        Ok(0) => refused(b"image has at least 1 byte", word),
        Ok(_) if n < MAX_IMAGE => refused(b"image is a file that can be read", word),
        Ok(_) => refused(b"image has at most 65536 bytes", word),
        Err(error) => unreadable(rt, &error, word),
    }
}

// What an image is to be is told.
fn refused(expected: &[u8], word: &[u8]) -> Option<usize>
    ensures { result ≡ None }
{
    complaint::complain(expected, word);
    None
}

// A call has failed: the line ends with its reason.
fn unreadable(rt: &HostRuntime, error: &io::Error, word: &[u8]) -> Option<usize>
    ensures { result ≡ None }
{
    complaint::name(b"image is a file that can be read", word);
    say(b": ");
    tell(rt, error);
    say(b"\n");
    None
}

// The reason as the system words it, without its number.
fn tell(rt: &HostRuntime, error: &io::Error) {
    if let Ok(text) = format!(in rt.alloc(); "{error}") {
        let said = text.as_str();
        let end = said.find(" (os error ").unwrap_or(said.len());
        say(&said.as_bytes()[..end]);
    }
}
