// Judges the master files of its data folder and prints what they hold. The second program writes the same text.
// The file cases has each of them after its length, four bytes big-endian.
#![tactic(auto)]

mod blockwise;
mod calendars;
mod finds;

use compare_text::{end_line, open_read, put_number, read_full, start_line};
use std::fs::File;

// The counts of a file, and of an accepted one the calendar and some records; then the answers of loading it block by block.
fn file_lines(rt: HostRuntime, file: &[u8], index: u16) {
    let loaded = file_load::load(file);
    let counts = loaded.counts;
    start_line(rt, b'F');
    put_number(rt, index);
    put_number(rt, loaded.refusal);
    put_number(rt, counts.years);
    put_number(rt, counts.records);
    end_line(rt);
    if loaded.refusal == 0 {
        calendars::print(rt, file);
        finds::print(rt, file);
    }
    blockwise::print(rt, file);
}

// The length of the next file; more than any file has where the cases end.
fn next_length(from: &mut File) -> usize {
    let mut head = [0u8; 4];
    let n = read_full(from, &mut head);
    if n < 4 {
        return usize::MAX;
    }
    u32::from_be_bytes(head) as usize
}

// Reads one file to the start of the buffer and prints its lines; whether there was one.
fn one(rt: HostRuntime, from: &mut File, buffer: &mut [u8], index: u16) -> bool {
    let n = next_length(from);
    if buffer.len() < n {
        return false;
    }
    if read_full(from, &mut buffer[..n]) < n {
        return false;
    }
    file_lines(rt, &buffer[..n], index);
    true
}

// At most 1,000 files.
fn all(rt: HostRuntime, from: &mut File, buffer: &mut [u8]) {
    for index in 0..1000 {
        if !one(rt, from, buffer, index) {
            return;
        }
    }
}

fn main(rt: HostRuntime) {
    let mut buffer = [0u8; 66048];
    if let Some(mut cases) = open_read(rt, b"cases") {
        all(rt, &mut cases, &mut buffer);
    }
}
