// Standard input, read part by part, and what is known of it.
ghost use Rattle.std.specs.Prelude.{◌≡◌, ◌<◌, false};
ghost use Rattle.streams.specs.Inputs.{input_after, ReadOn};

use crate::calls::{Transfer, read_some};
use crate::output::fail;

// How many reads may still be made, how many bytes the reads so far brought, modulo 2^64, and whether one failed.
// No read is left after one that found the end or failed; as a loop over them has to be shown to end, there are 2^64 - 1 in all.
// Its fields are private: only this file makes one, so no other code can say that the input has ended.
#[derive(Clone, Copy)]
pub struct Input {
    left: u64,
    bytes: u64,
    failed: bool,
}

// What is known of the input after some reads, and how many bytes they brought.
#[derive(Clone, Copy)]
pub struct Part {
    pub input: Input,
    pub length: usize,
}

// Before the first read.
pub fn nothing_read() -> Input
    ensures { (result.left ≡ 18446744073709551615) × (result.bytes ≡ 0) × (result.failed ≡ false) }
{
    Input {
        left: 18446744073709551615,
        bytes: 0,
        failed: false,
    }
}

// How many reads may still be made.
pub fn reads_left(input: Input) -> u64
    ensures { result ≡ input.left }
{
    input.left
}

// Whether a read failed.
pub fn has_failed(input: Input) -> bool
    ensures { result ≡ input.failed }
{
    input.failed
}

// What is known after one of the reads that are left.
fn after_read(input: Input, read: Transfer) -> Input
    requires { 0 < input.left }
    ensures { result ≡ input_after input read }
{
    if read.length == 0 {
        return Input {
            left: 0,
            bytes: input.bytes,
            failed: read.failed,
        };
    }
    let bytes = std::num::wrapping_add_u64(input.bytes, read.length as u64);
    Input {
        left: input.left - 1,
        bytes,
        failed: input.failed,
    }
}

// A part, and the number of the system's error where its last read failed, else 0.
#[derive(Clone, Copy)]
pub struct PartRead {
    pub part: Part,
    pub error: i32,
}

// The next bytes of standard input at the start of part: so many or more, or all that there are, or as many as part holds.
// Nothing is told of a read that fails. Where no read is left, none is made.
pub fn read_on_or_error(rt: HostRuntime, input: Input, enough: usize, part: &mut [u8]) -> PartRead
    ensures { ReadOn input enough part.new result.part }
{
    let mut so_far = input;
    let mut n: usize = 0;
    let mut error: i32 = 0;
    while (n < enough) & ((n < part.len()) & (0 < so_far.left)) {
        let mut stdin = rt.stdin();
        let read = read_some(&mut stdin, &mut part[n..]);
        so_far = after_read(so_far, read.moved);
        n += read.moved.length;
        error = read.error;
    }
    PartRead {
        part: Part {
            input: so_far,
            length: n,
        },
        error,
    }
}

// The same, without the number of the error.
pub fn read_on(rt: HostRuntime, input: Input, enough: usize, part: &mut [u8]) -> Part
    ensures { ReadOn input enough part.new result }
{
    read_on_or_error(rt, input, enough, part).part
}

// The same, and a read that fails is told: `what`, as `terms: standard input`, and the reason.
pub fn read_on_or_tell(
    rt: HostRuntime,
    what: &[u8],
    input: Input,
    enough: usize,
    part: &mut [u8],
) -> Part
    ensures { ReadOn input enough part.new result }
{
    let read = read_on_or_error(rt, input, enough, part);
    let now = read.part.input;
    if now.failed {
        fail(rt, what, read.error);
    }
    read.part
}
