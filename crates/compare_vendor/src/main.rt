// Judges the lists of its data folder by tables that it opens from its master file, and prints the verdicts. The second program writes the same text.
// The file lists has of each list 1, the product's id, the date, 1 where the count given is to be wrong, the count of numbers, and the numbers;
// all but the id in two bytes, big-endian.
#![tactic(auto)]

ghost use Rattle.std.specs.Prelude.{◌≤◌, length};

use compare_text::{end_line, open_read, put_number, read_file, read_full, start_line};
use std::fs::File;
use table::Table;

// The next number; 0 where the lists end.
fn next_number(from: &mut File) -> u16 {
    let mut head = [0u8; 2];
    let n = read_full(from, &mut head);
    if n < 2 {
        return 0;
    }
    u16::from_be_bytes(head)
}

// The next id.
fn next_id(from: &mut File) -> [u8; 4] {
    let mut id = [0u8; 4];
    read_full(from, &mut id);
    id
}

// The next n numbers, at the start of a list.
fn fill(from: &mut File, list: &mut [u16], n: usize) {
    for i in 0..n {
        let number = next_number(from);
        if i < list.len() {
            list[i] = number;
        }
    }
}

// How many numbers of a list there are, at most as many as it has places.
fn within(list: &[u16], count: usize) -> usize
    ensures { result ≤ length list.now }
{
    count.min(list.len())
}

// The table, or one with a wrong count given.
fn damaged(t: Table, wrong: u16) -> Table {
    if wrong != 1 {
        return t;
    }
    Table { given: 60000, ..t }
}

// A line: the refusal, 1 for a yes, and the key.
fn verdict_line(rt: HostRuntime, refusal: u8, same: u8, key: u16) {
    start_line(rt, b'V');
    put_number(rt, refusal);
    put_number(rt, same);
    put_number(rt, key);
    end_line(rt);
}

// What is said of the numbers of a list.
fn print_verdict(rt: HostRuntime, t: Table, list: &[u16], count: usize) {
    let n = within(list, count);
    match table_vendor::judge(t, &list[..n]) {
        Ok(None) => verdict_line(rt, 0, 1, 0),
        Ok(Some(key)) => verdict_line(rt, 0, 0, key),
        Err(refusal) => verdict_line(rt, refusal.number(), 0, 0),
    }
}

// The next list and its verdict.
fn one(rt: HostRuntime, from: &mut File, file: &[u8], list: &mut [u16]) {
    let id = next_id(from);
    let date = next_number(from);
    let wrong = next_number(from);
    let n = next_number(from) as usize;
    fill(from, list, n);
    let o = table::zero_table().open(file, id, date);
    let opened = o.table;
    let t = damaged(opened, wrong);
    print_verdict(rt, t, list, n);
}

// At most 10,000 lists.
fn all(rt: HostRuntime, from: &mut File, file: &[u8], list: &mut [u16]) {
    for _ in 0..10000 {
        if next_number(from) != 1 {
            return;
        }
        one(rt, from, file, list);
    }
}

fn main(rt: HostRuntime) {
    let mut file = [0u8; 65537];
    let mut list = [0u16; 1024];
    let size = read_file(rt, b"master.bin", &mut file);
    if let Some(mut lists) = open_read(rt, b"lists") {
        all(rt, &mut lists, &file[..size], &mut list);
    }
}
