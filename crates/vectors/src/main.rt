#![tactic(auto)]

// Runs the compiled checksums, frame writer and frame reader on vectors and prints what they give. The stored output was made by
// tests/vectors.py, which uses other implementations of the checksums; the gate compares the two.
ghost use Rattle.io.specs.Counts.{IsPrefixLen};

use frames::{buffer, writer};

fn main() {
    let m = message();
    all_sums(&m);
    all_frames(&m);
}

// Lengths around the first blocks of sixteen bytes, the least that is folded, and the first parts of a folded message.
fn all_sums(m: &[u8]) {
    lengths(0, 68, m);
    lengths(126, 132, m);
    lengths(510, 518, m);
    lengths(1024, 1032, m);
    lengths(2050, 2056, m);
    checksums(3100, m);
    text(b"123456789", m);
}

fn all_frames(m: &[u8]) {
    frame(0, 526, m);
    frame(1, 526, m);
    frame(256, 526, m);
    frame(519, 526, m);
    frame(519, 525, m);
    frame(520, 526, m);
}

// Bytes without a simple pattern modulo 16.
fn message() -> [u8; 3100] {
    let mut m = [0u8; 3100];
    for i in 0..3100 {
        m[i] = (i * 7 % 251) as u8;
    }
    m
}

// Each length from `from` to below `to`.
fn lengths(from: usize, to: usize, m: &[u8]) {
    for n in from..to {
        checksums(n, m);
    }
}

fn checksums(n: usize, m: &[u8]) {
    let k = fit(n, m);
    io::print_decimal(1, n as u64);
    sums(&m[..k]);
}

fn text(s: &[u8], m: &[u8]) {
    io::write_all(1, s);
    sums(s);
}

// Both kinds of CRC-16, CRC-32, and CRC-32 once more in two parts.
fn sums(s: &[u8]) {
    let half = fit(s.len() / 2, s);
    let register = crc32::update(crc32::INIT, &s[..half]);
    let parts = crc32::finish(crc32::update(register, &s[half..]));
    word(crc16::modbus(s) as u64, 4);
    word(crc16::ccitt(s) as u64, 4);
    word(crc32::checksum(s) as u64, 8);
    word(parts as u64, 8);
    io::write_all(1, b"\n");
}

// A frame of n data bytes written to so much room: its size, the room's CRC-32, whether it reads back, and the data's.
fn frame(n: usize, size: usize, m: &[u8]) {
    let mut space = [0xEEu8; 526];
    let all: &mut [u8] = &mut space;
    let k = fit(size, all);
    let room = &mut all[..k];
    let d = fit(n, m);
    let written = writer::write(0x10, 0xFD, &m[..d], &mut *room);
    io::write_all(1, b"frame ");
    io::print_decimal(1, n as u64);
    io::write_all(1, b" in ");
    io::print_decimal(1, size as u64);
    io::write_all(1, b": ");
    io::print_decimal(1, written as u64);
    read_back(room);
}

fn read_back(room: &[u8]) {
    word(crc32::checksum(room) as u64, 8);
    if buffer::whole(room) {
        io::write_all(1, b" whole");
    } else {
        io::write_all(1, b" none");
    }
    word(crc32::checksum(buffer::data(room)) as u64, 8);
    io::write_all(1, b"\n");
}

fn word(x: u64, width: usize) {
    io::write_all(1, b" ");
    io::print_hex(1, x, width);
}

// n, or the length of s where that is less.
fn fit(n: usize, s: &[u8]) -> usize
    ensures { IsPrefixLen result s.now }
{
    n.min(s.len())
}
