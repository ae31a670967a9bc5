// Reading files by name. `what` is told before the reason: the program and what it reads, as `query: master.bin`.
ghost use Rattle.streams.specs.Transfers.{Within};

use crate::calls::{Attempt, EINVAL, Transfer, failure, number_of, read_some};
use crate::output::fail;
use std::fs::File;
use std::io::Read;

// A file that is opened for reading, or the number of the error. A name is UTF-8.
fn open_read(rt: HostRuntime, name: &[u8]) -> Result<File, i32> {
    match std::str::from_utf8(name) {
        Ok(text) => match File::open(&rt, text) {
            Ok(file) => Ok(file),
            Err(error) => Err(number_of(error)),
        },
        Err(_) => Err(EINVAL),
    }
}

// The bytes of an input at the start of a buffer: up to the end, or as many as the buffer holds. None where any read fails.
fn read_all<R: Read>(from: &mut R, buffer: &mut [u8]) -> Attempt
    ensures { Within result.moved buffer.new }
{
    let mut n: usize = 0;
    while n < buffer.len() {
        let part = read_some(from, &mut buffer[n..]);
        if part.moved.failed {
            return Attempt {
                moved: failure(),
                error: part.error,
            };
        }
        if part.moved.length == 0 {
            break;
        }
        n += part.moved.length;
    }
    Attempt {
        moved: Transfer {
            failed: false,
            length: n,
        },
        error: 0,
    }
}

// The same of a file that is opened.
fn read_opened(rt: HostRuntime, name: &[u8], buffer: &mut [u8]) -> Attempt
    ensures { Within result.moved buffer.new }
{
    match open_read(rt, name) {
        Ok(mut file) => read_all(&mut file, buffer),
        Err(error) => Attempt {
            moved: failure(),
            error,
        },
    }
}

// The bytes of a file at the start of a buffer: up to its end, or as many as the buffer holds.
// None where it cannot be opened or read, of which nothing is told.
pub fn read_file(rt: HostRuntime, name: &[u8], buffer: &mut [u8]) -> Transfer
    ensures { Within result buffer.new }
{
    read_opened(rt, name, buffer).moved
}

// The same, and a file that cannot be opened or read is told.
pub fn read_file_or_tell(rt: HostRuntime, what: &[u8], name: &[u8], buffer: &mut [u8]) -> Transfer
    ensures { Within result buffer.new }
{
    let read = read_opened(rt, name, buffer);
    if read.moved.failed {
        fail(rt, what, read.error);
    }
    read.moved
}
