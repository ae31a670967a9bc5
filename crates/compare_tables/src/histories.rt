// Whole histories: a table is opened and a list of calls is run on it, in one call.
ghost use Rattle.std.specs.Prelude.{◌≡◌, ◌≤◌, length};

use crate::reading::{four, read_master, two};
use crate::show::put_table;
use compare_text::{end_line, put_number, read_full, start_line};
use history_replay::Replay;
use std::fs::File;
use table::Table;

// A number, or the most it may be.
fn at_most(number: u16, most: u16) -> usize
    ensures { result ≤ most }
{
    usize::from(number.min(most))
}

// A call's kind, from the letter of its record: 0 for a roll, 1 for a close, 2 for a reopening, 3 for a measure,
// and for any other letter the number in the three bytes after it.
fn kind_of(letter: u8, a: u8, b: u8, c: u8) -> u32 {
    match letter {
        b'R' => 0,
        b'C' => 1,
        b'E' => 2,
        b'Z' => 3,
        _ => four(0, a, b, c),
    }
}

// The four numbers of a call: the kind, and three as they stand in its record.
fn call_in(bytes: [u8; 16]) -> [u32; 4] {
    [
        kind_of(bytes[0], bytes[1], bytes[2], bytes[3]),
        four(bytes[4], bytes[5], bytes[6], bytes[7]),
        four(bytes[8], bytes[9], bytes[10], bytes[11]),
        four(bytes[12], bytes[13], bytes[14], bytes[15]),
    ]
}

// The calls of the next n records, four numbers each.
fn read_calls(from: &mut File, n: usize) -> [u32; 1024]
    requires { n ≤ 256 }
    ensures { length result ≡ 1024 }
{
    let mut calls = [0u32; 1024];
    for i in 0..n {
        let mut bytes = [0u8; 16];
        read_full(from, &mut bytes);
        let numbers = call_in(bytes);
        calls[4 * i] = numbers[0];
        calls[4 * i + 1] = numbers[1];
        calls[4 * i + 2] = numbers[2];
        calls[4 * i + 3] = numbers[3];
    }
    calls
}

// The answer of each call: refusal, entered, left, price.
fn put_answers(rt: HostRuntime, answers: [u32; 1024], n: usize)
    requires { n ≤ 256 }
{
    for i in 0..n {
        start_line(rt, b'A');
        put_number(rt, answers[4 * i]);
        put_number(rt, answers[4 * i + 1]);
        put_number(rt, answers[4 * i + 2]);
        put_number(rt, answers[4 * i + 3]);
        end_line(rt);
    }
}

// Whether the lists fit, open's refusal, and the table.
fn put_replay(rt: HostRuntime, r: Replay) {
    let t = r.table;
    start_line(rt, b'H');
    if r.fits {
        put_number(rt, 1);
    } else {
        put_number(rt, 0);
    }
    put_number(rt, r.refusal as u16);
    put_table(rt, t);
    end_line(rt);
}

// Opens a table, runs on it the calls whose numbers are lent, and prints the answers of n calls from a buffer of which a part is lent.
fn replay(
    rt: HostRuntime,
    bytes: [u8; 16],
    calls: [u32; 1024],
    n: usize,
    numbers_lent: usize,
    buffer_lent: usize,
) -> Table
    requires { (n ≤ 256) × (numbers_lent ≤ 1024) × (buffer_lent ≤ 1024) × (length calls ≡ 1024) }
{
    let id = [bytes[4], bytes[5], bytes[6], bytes[7]];
    let date = two(bytes[2], bytes[3]);
    let mut answers = [0u32; 1024];
    let mut file = io::large_buffer();
    let size = read_master(rt, bytes[1], &mut file);
    let r = history_replay::run(
        &file[..size],
        id,
        date,
        &calls[..numbers_lent],
        &mut answers[..buffer_lent],
    );
    put_replay(rt, r);
    put_answers(rt, answers, n);
    let t = r.table;
    t
}

// A history of the calls in the records that follow.
// The record says how many there are, how many of their numbers are lent, and the length of the buffer that is lent.
pub(crate) fn run(rt: HostRuntime, from: &mut File, bytes: [u8; 16]) -> Table {
    let n = at_most(two(bytes[8], bytes[9]), 256);
    let numbers_lent = at_most(two(bytes[10], bytes[11]), 1024);
    let buffer_lent = at_most(two(bytes[12], bytes[13]), 1024);
    let calls = read_calls(from, n);
    replay(rt, bytes, calls, n, numbers_lent, buffer_lent)
}
