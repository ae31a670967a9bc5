// One read and one write. Each is made again where a signal interrupted it.
// The loops have to be shown to end, so after 2^64 - 1 interruptions the call counts as failed.
ghost use Rattle.std.specs.Prelude.{◌≡◌, ◌≤◌, length, IfOk};
ghost use Rattle.streams.specs.Transfers.{failed, transfer_of, Within};

use std::io::{Error, Read, Write};

// The descriptors that are written to.
pub const STDOUT_FILENO: i32 = 1;

pub const STDERR_FILENO: i32 = 2;

// The numbers of errors, as Linux has them.
const EINTR: i32 = 4;

pub const EBADF: i32 = 9;

pub(crate) const EINVAL: i32 = 22;

// What a read or a write moved: so many bytes at the start of the buffer, or none as it failed.
// None without a failure is the end of an input, and of a write that nothing was taken.
#[derive(Clone, Copy)]
pub struct Transfer {
    pub failed: bool,
    pub length: usize,
}

// What a read or a write moved, and the number of the system's error where it failed, else 0.
#[derive(Clone, Copy)]
pub struct Attempt {
    pub moved: Transfer,
    pub error: i32,
}

// What a call answered: how many bytes it moved, or a negative number where it failed, and then the number of the error.
#[derive(Clone, Copy)]
struct Answer {
    got: isize,
    error: i32,
}

// A call that failed.
pub(crate) fn failure() -> Transfer
    ensures { result ≡ failed }
{
    Transfer {
        failed: true,
        length: 0,
    }
}

// The number of an error. One that the system did not give is that of a file's name which cannot be one.
pub(crate) fn number_of(error: Error) -> i32 {
    match error.raw_os_error() {
        Some(number) => number,
        None => EINVAL,
    }
}

// What a call on a buffer answered.
fn answer_of(said: Result<usize, Error>, buffer: &[u8]) -> Answer
    requires { IfOk said (λ n. n ≤ length buffer.now) }
{
    match said {
        Ok(n) => Answer {
            got: n as isize,
            error: 0,
        },
        Err(error) => Answer {
            got: -1,
            error: number_of(error),
        },
    }
}

// Whether a signal interrupted a call before it moved a byte.
fn interrupted(answer: Answer) -> bool {
    (answer.got < 0) & (answer.error == EINTR)
}

// What the answer of a call on a buffer says.
fn transfer_of(got: isize, buffer: &[u8]) -> Transfer
    ensures { result ≡ transfer_of got (length buffer.now) }
{
    if got < 0 {
        return failure();
    }
    let length = io::count(got, buffer);
    Transfer {
        failed: false,
        length,
    }
}

// The next bytes of an input at the start of a buffer.
pub(crate) fn read_some<R: Read>(from: &mut R, part: &mut [u8]) -> Attempt
    ensures { Within result.moved part.new }
{
    for _ in 0..u64::MAX {
        let said = from.read(part);
        let answer = answer_of(said, part);
        if !interrupted(answer) {
            let moved = transfer_of(answer.got, part);
            return Attempt {
                moved,
                error: answer.error,
            };
        }
    }
    Attempt {
        moved: failure(),
        error: EINTR,
    }
}

// One call that writes bytes to standard output or standard error. Another descriptor is not open for it.
fn write_to(rt: HostRuntime, fd: i32, bytes: &[u8]) -> Result<usize, Error>
    ensures { IfOk result (λ n. n ≤ length bytes.now) }
{
    if fd == STDOUT_FILENO {
        return rt.stdout().write(bytes);
    }
    if fd == STDERR_FILENO {
        return rt.stderr().write(bytes);
    }
    Err(Error::from_raw_os_error(EBADF))
}

// One write of bytes, which may take only some of them, and the number of the error of one that failed.
pub fn write_or_error(rt: HostRuntime, fd: i32, bytes: &[u8]) -> Attempt
    ensures { Within result.moved bytes.now }
{
    for _ in 0..u64::MAX {
        let said = write_to(rt, fd, bytes);
        let answer = answer_of(said, bytes);
        if !interrupted(answer) {
            let moved = transfer_of(answer.got, bytes);
            return Attempt {
                moved,
                error: answer.error,
            };
        }
    }
    Attempt {
        moved: failure(),
        error: EINTR,
    }
}

// One write of bytes, which may take only some of them.
pub fn write_some(rt: HostRuntime, fd: i32, bytes: &[u8]) -> Transfer
    ensures { Within result bytes.now }
{
    write_or_error(rt, fd, bytes).moved
}
