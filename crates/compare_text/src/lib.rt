// The pieces of a line that a comparing program prints: a letter, then numbers, each after a space.
// A write that fails is passed over: what is missing then shows in the comparison.
#![tactic(auto)]

ghost use Rattle.io.specs.Counts.{IsPrefixLen};

use listing::Maturity;
use std::fmt::Display;
use std::fs::File;
use std::io::Read;

pub fn start_line(rt: HostRuntime, letter: u8) {
    let _ = rt.write_all(&[letter]);
}

// A number after a space.
pub fn put_number<N: Display + Drop>(rt: HostRuntime, n: N) {
    let _ = print!(rt; " {n}");
}

// 1 for a yes, 0 for a no.
pub fn put_answer(rt: HostRuntime, yes: bool) {
    put_number(rt, u8::from(yes));
}

// The key, the last trading day, the days stepped back and the number of each maturity.
pub fn put_maturities(rt: HostRuntime, maturities: &[Maturity; 15]) {
    for m in maturities {
        put_number(rt, m.key);
        put_number(rt, m.day);
        put_number(rt, m.back);
        put_number(rt, m.number);
    }
}

pub fn end_line(rt: HostRuntime) {
    let _ = rt.write_all(b"\n");
}

// Opens a file of the folder for reading; none where it cannot be opened.
pub fn open_read(rt: HostRuntime, name: &[u8]) -> Option<File> {
    match std::str::from_utf8(name) {
        Ok(text) => File::open(&rt, text).ok(),
        Err(_) => None,
    }
}

// Reads until the buffer is full, the file ends or a read fails, and says how many bytes it put at the start of the buffer.
pub fn read_full(from: &mut File, buffer: &mut [u8]) -> usize
    ensures { IsPrefixLen result buffer.new }
{
    let mut done: usize = 0;
    while done < buffer.len() {
        let n = from.read(&mut buffer[done..]).unwrap_or(0);
        if n == 0 {
            break;
        }
        done += n;
    }
    done
}

// The same of a file by name; one that cannot be opened counts as empty.
pub fn read_file(rt: HostRuntime, name: &[u8], buffer: &mut [u8]) -> usize
    ensures { IsPrefixLen result buffer.new }
{
    match open_read(rt, name) {
        Some(mut file) => read_full(&mut file, buffer),
        None => 0,
    }
}
