// The line that is printed, piece by piece, and what is told on standard error.
// No buffer stands beside the block: what tells the system's words for an error, in `streams`, has several.
ghost use Rattle.std.specs.Prelude.{◌≡◌, true, ◌+◌, length};
ghost use Rattle.session_text.specs.TermsText.{decimal};
ghost use Rattle.file_text_print.specs.WholeText.{NextOf};
ghost use Rattle.file_intake_text.specs.GatewayTexts.{GatewaySays, ended_text};

use file_intake_text::Ended;
use streams::{EBADF, Input, STDOUT_FILENO};

// The numbers of errors, as Linux has them.
const EIO: i32 = 5;

const EISDIR: i32 = 21;

const ENOSPC: i32 = 28;

// Whether standard output has taken all that was handed to it, and how many bytes were handed to it. Its fields are private: only this file makes one.
#[derive(Clone, Copy)]
pub struct LineHanded {
    open: bool,
    bytes: usize,
}

// Before the first write.
fn nothing_sent() -> LineHanded
    ensures { result.bytes ≡ 0 }
{
    LineHanded {
        open: true,
        bytes: 0,
    }
}

// Whether standard output has taken all.
pub(crate) fn is_open(sent: LineHanded) -> bool
    ensures { result ≡ sent.open }
{
    sent.open
}

// Tells the system's name of a reason.
fn tell_reason(rt: HostRuntime, error: i32) {
    match error {
        EIO => streams::tell(rt, b"EIO\n"),
        EISDIR => streams::tell(rt, b"EISDIR\n"),
        ENOSPC => streams::tell(rt, b"ENOSPC\n"),
        EBADF => streams::tell(rt, b"EBADF\n"),
        _ => streams::tell(rt, b"unknown\n"),
    }
}

// Tells that a read or a write failed, and why; a write of no bytes has no reason.
pub(crate) fn tell_failure(rt: HostRuntime, reading: bool, failed: bool, error: i32) {
    streams::tell(rt, b"gateway: standard ");
    if reading {
        streams::tell(rt, b"input: ");
    } else {
        streams::tell(rt, b"output: ");
    }
    if failed {
        tell_reason(rt, error);
    } else {
        streams::tell(rt, b"0 bytes\n");
    }
}

// Writes all of bytes, and answers whether standard output took them. Where it did not, one line on standard error says why.
fn put(rt: HostRuntime, bytes: &[u8]) -> bool {
    let mut done: usize = 0;
    while done < bytes.len() {
        let attempt = streams::write_or_error(rt, STDOUT_FILENO, &bytes[done..]);
        let part = attempt.moved;
        if part.length == 0 {
            tell_failure(rt, false, part.failed, attempt.error);
            return false;
        }
        done += part.length;
    }
    true
}

// Writes a piece, which has to be the next of the line after those before it. After a write that failed nothing more is written.
fn write_piece(rt: HostRuntime, sent: LineHanded, e: Ended, piece: &[u8]) -> LineHanded
    requires { NextOf (ended_text e) sent.bytes piece.now }
    ensures { (result.bytes ≡ sent.bytes + length piece.now) × (result.open ≡ true → sent.open ≡ true) }
{
    let bytes = sent.bytes + piece.len();
    if !sent.open {
        return LineHanded { open: false, bytes };
    }
    let open = put(rt, piece);
    LineHanded { open, bytes }
}

// Writes a number. Where it is a function of its own, its registers and buffers stand beside the block a second time.
#[inline(always)]
fn write_number(rt: HostRuntime, sent: LineHanded, e: Ended, n: u16) -> LineHanded
    requires { NextOf (ended_text e) sent.bytes (decimal n) }
    ensures { result.bytes ≡ sent.bytes + length (decimal n) }
{
    let digits = file_intake_text::five_digits(n);
    let from = 5 - file_intake_text::digit_count(n);
    write_piece(rt, sent, e, &digits[from..])
}

// Writes the line of what the run ended with, all of it, which has to be what is said after these reads.
pub(crate) fn write_line(rt: HostRuntime, blocks: u16, input: Input, e: Ended) -> LineHanded
    requires { GatewaySays blocks input (ended_text e) }
    ensures { result.bytes ≡ length (ended_text e) }
{
    let none = nothing_sent();
    if e.refusal != 0 {
        let word = write_piece(rt, none, e, b"NO ");
        let number = write_number(rt, word, e, e.refusal as u16);
        return write_piece(rt, number, e, b"\n");
    }
    let word = write_piece(rt, none, e, b"OK ");
    let years = write_number(rt, word, e, e.years);
    let space = write_piece(rt, years, e, b" ");
    let records = write_number(rt, space, e, e.records);
    write_piece(rt, records, e, b"\n")
}
