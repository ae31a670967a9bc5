// Writing to standard output, and what has been written; telling on standard error.
ghost use Rattle.std.specs.Prelude.{◌≡◌, ◌+◌, ◌%◌, ◌^◌, ◌<◌, ◌≤◌, true, false, length};
ghost use Rattle.streams.specs.Transfers.{Grew};

use crate::calls::{STDERR_FILENO, STDOUT_FILENO, write_or_error, write_some};
use std::fmt::Write;
use std::{fmt, io};

// Whether standard output has taken all that was written to it, and how many bytes that is, modulo 2^64.
// Its fields are private: only this file makes one, so a count that grew says that a write was made which the output took.
#[derive(Clone, Copy)]
pub struct Sent {
    open: bool,
    bytes: u64,
}

// After one write: what has been sent, and how many bytes of it were taken now.
#[derive(Clone, Copy)]
struct Step {
    sent: Sent,
    taken: usize,
}

// Before the first write.
pub fn nothing_sent() -> Sent
    ensures { (result.open ≡ true) × (result.bytes ≡ 0) }
{
    Sent {
        open: true,
        bytes: 0,
    }
}

// Whether the output has taken all.
pub fn is_open(sent: Sent) -> bool
    ensures { result ≡ sent.open }
{
    sent.open
}

// Writes bytes to standard error. Where it does not take them there is no other place to tell it.
pub fn tell(rt: HostRuntime, text: &[u8]) {
    let mut done: usize = 0;
    while done < text.len() {
        let part = write_some(rt, STDERR_FILENO, &text[done..]);
        if part.length == 0 {
            return;
        }
        done += part.length;
    }
}

// How many bytes were told with `tell_next`, modulo 2^64.
// Its field is private: only this file makes one, so a count that grew says that so many bytes were told.
#[derive(Clone, Copy)]
pub struct Told {
    bytes: u64,
}

// Before the first line is told.
pub fn nothing_told() -> Told
    ensures { result.bytes ≡ 0 }
{
    Told { bytes: 0 }
}

// Writes the next bytes to standard error, and counts them, whether it takes them or not.
pub fn tell_next(rt: HostRuntime, told: Told, text: &[u8]) -> Told
    ensures { Grew told.bytes (length text.now) result.bytes }
{
    tell(rt, text);
    let bytes = std::num::wrapping_add_u64(told.bytes, text.len() as u64);
    Told { bytes }
}

// The system's words for an error, and after them ` (os error N)`, of which as much is kept as there is room for.
#[derive(Drop)]
struct Words {
    bytes: [u8; 128],
    length: usize,
}

impl fmt::Write for Words {
    fn write_str(&mut self, s: &str) -> fmt::Result {
        for byte in s.as_bytes() {
            if self.length < self.bytes.len() {
                self.bytes[self.length] = *byte;
                self.length += 1;
            }
        }
        Ok(())
    }
}

// How many of the bytes stand before ` (os error N)`: the last bracket that opens, and the space before it, begin it.
fn words_length(bytes: &[u8]) -> usize
    ensures { result ≤ length bytes.now }
{
    match bytes.iter().rposition(|byte| *byte == b'(') {
        Some(bracket) => bracket.saturating_sub(1),
        None => bytes.len(),
    }
}

// Tells a line: what failed, and the system's words for the error.
pub(crate) fn fail(rt: HostRuntime, what: &[u8], error: i32) {
    let mut words = Words {
        bytes: [0u8; 128],
        length: 0,
    };
    let reason = io::Error::from_raw_os_error(error);
    let _ = write!(words, "{reason}");
    let length = words.length.min(words.bytes.len());
    let text = &words.bytes[..length];
    tell(rt, what);
    tell(rt, b": ");
    tell(rt, &text[..words_length(text)]);
    tell(rt, b"\n");
}

// Tells why a write took nothing: with the system's reason where it failed.
fn tell_write(rt: HostRuntime, what: &[u8], failed: bool, error: i32) {
    if failed {
        fail(rt, what, error);
        return;
    }
    tell(rt, what);
    tell(rt, b": nothing was written\n");
}

// One write to standard output, whose bytes are counted. One that takes nothing is told, and no other is made after it.
fn send_some(rt: HostRuntime, sent: Sent, what: &[u8], bytes: &[u8]) -> Step
    ensures taken_in_bounds { result.taken ≤ length bytes.now }
    ensures open_value { 0 < result.taken → (result.sent.open ≡ sent.open) × (result.sent.bytes ≡ (sent.bytes + result.taken) % 2 ^ 64) }
    ensures open_value_2 { result.taken ≡ 0 → result.sent.open ≡ false }
{
    let attempt = write_or_error(rt, STDOUT_FILENO, bytes);
    let part = attempt.moved;
    if part.length == 0 {
        tell_write(rt, what, part.failed, attempt.error);
        return Step {
            sent: Sent {
                open: false,
                bytes: sent.bytes,
            },
            taken: 0,
        };
    }
    let count = std::num::wrapping_add_u64(sent.bytes, part.length as u64);
    Step {
        sent: Sent {
            open: sent.open,
            bytes: count,
        },
        taken: part.length,
    }
}

// Writes all of bytes to standard output, unless it did not take all that came before.
// Where it does not take them, one line on standard error says so: what, and the reason.
pub fn write_next(rt: HostRuntime, sent: Sent, what: &[u8], bytes: &[u8]) -> Sent
    ensures { result.open ≡ true → (sent.open ≡ true) × (result.bytes ≡ (sent.bytes + length bytes.now) % 2 ^ 64) }
{
    if !sent.open {
        return sent;
    }
    let mut so_far = sent;
    let mut done: usize = 0;
    while done < bytes.len() {
        let step = send_some(rt, so_far, what, &bytes[done..]);
        so_far = step.sent;
        if step.taken == 0 {
            return so_far;
        }
        done += step.taken;
    }
    so_far
}
