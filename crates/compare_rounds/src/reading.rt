// Reading the script, a record of 16 bytes at a time, and the master file.
ghost use Rattle.io.specs.Counts.{IsPrefixLen};

use compare_text::{read_file, read_full};
use std::fs::File;

// A record: its letter, two numbers and an id.
#[derive(Clone, Copy)]
pub struct Record {
    pub letter: u8,
    pub number: u16,
    pub second: u16,
    pub id: [u8; 4],
}

// The next record; none where the script has ended, or where the letter is 0.
pub(crate) fn next(from: &mut File) -> Option<Record> {
    let mut bytes = [0u8; 16];
    let n = read_full(from, &mut bytes);
    let letter = bytes[0];
    if (n < 16) | (letter == 0) {
        return None;
    }
    Some(Record {
        letter,
        number: u16::from_be_bytes([bytes[2], bytes[3]]),
        second: u16::from_be_bytes([bytes[4], bytes[5]]),
        id: [bytes[6], bytes[7], bytes[8], bytes[9]],
    })
}

// Reads the master file to the start of buf. One that cannot be opened counts as empty.
pub(crate) fn read_master(rt: HostRuntime, buf: &mut [u8]) -> usize
    ensures { IsPrefixLen result buf.new }
{
    read_file(rt, b"master.bin", buf)
}
