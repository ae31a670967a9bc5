// Writes master files and prints what stands in the buffer afterwards. The second program writes the same text.
// The file drafts has what they are written from:
// first year and years in two bytes each, the buffer's length and that of the records in four, the two maps, the records.
// The file files has accepted files, each after its length in four bytes, which are written again.
#![tactic(auto)]

mod buffers;
mod inputs;

use calendar::Calendar;
use compare_text::{end_line, open_read, put_number, read_full, start_line};
use std::fs::File;

// The letter, the index, the refusal, the length, and the digest of the whole buffer.
fn write_line(rt: HostRuntime, letter: u8, index: u16, refusal: u8, length: usize, digest: u64) {
    start_line(rt, letter);
    put_number(rt, index as u64);
    put_number(rt, refusal as u64);
    put_number(rt, length as u64);
    put_number(rt, digest);
    end_line(rt);
}

// Writes a file into the first bytes of a buffer and prints its line; the length.
fn write(
    rt: HostRuntime,
    letter: u8,
    index: u16,
    calendar: Calendar,
    records: &[u8],
    out: &mut [u8],
    room: usize,
) -> usize {
    if out.len() < room {
        return 0;
    }
    buffers::fill(out);
    let (refusal, length) = match file_write::write(calendar, records, &mut out[..room]) {
        Ok(length) => (0, length),
        Err(refusal) => (refusal.number(), 0),
    };
    write_line(rt, letter, index, refusal, length, buffers::digest(out));
    length
}

// What load says of a file.
fn load_line(rt: HostRuntime, file: &[u8]) {
    let loaded = file_load::load(file);
    let counts = loaded.counts;
    start_line(rt, b'L');
    put_number(rt, loaded.refusal as u64);
    put_number(rt, counts.years as u64);
    put_number(rt, counts.records as u64);
    end_line(rt);
}

// What an accepted file holds, written again, with buffers for the records and for the file.
fn again_in(rt: HostRuntime, file: &[u8], index: u16, records: &mut [u8], out: &mut [u8]) {
    let length = inputs::put_records(file, records);
    if records.len() < length {
        return;
    }
    let calendar = file_calendar::calendar_of(file);
    write(rt, b'S', index, calendar, &records[..length], out, 66048);
}

// The file that was written: its counts, and what it holds written again.
fn file_lines(rt: HostRuntime, file: &[u8], index: u16) {
    let mut records = [0u8; 61440];
    let mut out = [0u8; 66048];
    load_line(rt, file);
    again_in(rt, file, index, &mut records, &mut out);
}

// Reads the records of a draft into a buffer; whether they were there.
fn read(from: &mut File, records: &mut [u8], length: usize) -> bool {
    if records.len() < length {
        return false;
    }
    read_full(from, &mut records[..length]) == length
}

// Writes the file of a draft into a buffer and prints its lines.
fn draft_lines(
    rt: HostRuntime,
    index: u16,
    calendar: Calendar,
    records: &[u8],
    length: usize,
    out: &mut [u8],
    room: usize,
) {
    if records.len() < length {
        return;
    }
    let n = write(rt, b'W', index, calendar, &records[..length], out, room);
    if n == 0 {
        return;
    }
    if out.len() < n {
        return;
    }
    file_lines(rt, &out[..n], index);
}

// Reads one draft and prints its lines; whether there was one.
fn draft(rt: HostRuntime, from: &mut File, index: u16) -> bool {
    let mut head = [0u8; 1484];
    let mut records = [0u8; 61440];
    let mut out = [0u8; 66048];
    if !read(from, &mut head, 1484) {
        return false;
    }
    let length = inputs::length_at(&head, 8);
    if !read(from, &mut records, length) {
        return false;
    }
    let calendar = inputs::calendar_at(&head);
    let room = inputs::length_at(&head, 4);
    draft_lines(rt, index, calendar, &records, length, &mut out, room);
    true
}

// At most 1,000 drafts.
fn drafts(rt: HostRuntime, from: &mut File) {
    for index in 0..1000 {
        if !draft(rt, from, index) {
            return;
        }
    }
}

// The lines of a file that stands in the first bytes of a buffer.
fn prefix_lines(rt: HostRuntime, buffer: &[u8], n: usize, index: u16) {
    if n <= buffer.len() {
        file_lines(rt, &buffer[..n], index);
    }
}

// Reads one file and prints its lines; whether there was one.
fn one(rt: HostRuntime, from: &mut File, index: u16) -> bool {
    let mut head = [0u8; 4];
    let mut file = [0u8; 66048];
    if !read(from, &mut head, 4) {
        return false;
    }
    let n = inputs::length_at(&head, 0);
    if !read(from, &mut file, n) {
        return false;
    }
    prefix_lines(rt, &file, n, index);
    true
}

// At most 1,000 files.
fn files(rt: HostRuntime, from: &mut File) {
    for index in 0..1000 {
        if !one(rt, from, index) {
            return;
        }
    }
}

fn main(rt: HostRuntime) {
    if let Some(mut list) = open_read(rt, b"drafts") {
        drafts(rt, &mut list);
    }
    if let Some(mut stored) = open_read(rt, b"files") {
        files(rt, &mut stored);
    }
}
