// Reading the script, a record of 16 bytes at a time, and the master files.
ghost use Rattle.io.specs.Counts.{IsPrefixLen};

use compare_text::{read_file, read_full};
use std::fs::File;

// The next record; none where the script has ended.
pub(crate) fn next(from: &mut File) -> Option<[u8; 16]> {
    let mut bytes = [0u8; 16];
    (read_full(from, &mut bytes) == 16).then_some(bytes)
}

// A number of two bytes, big-endian.
pub(crate) fn two(high: u8, low: u8) -> u16 {
    u16::from_be_bytes([high, low])
}

// A number of four bytes, big-endian.
pub(crate) fn four(a: u8, b: u8, c: u8, d: u8) -> u32 {
    u32::from_be_bytes([a, b, c, d])
}

// Reads a master file, named by two digits, to the start of buf. One that cannot be opened counts as empty.
pub(crate) fn read_master(rt: HostRuntime, number: u8, buf: &mut [u8]) -> usize
    ensures { IsPrefixLen result buf.new }
{
    let tens = b'0' + number / 10;
    let ones = b'0' + number % 10;
    let path = [
        b'm', b'a', b's', b't', b'e', b'r', tens, ones, b'.', b'b', b'i', b'n',
    ];
    read_file(rt, &path, buf)
}
