// Writing the session's text to standard output.
ghost use Rattle.std.specs.Prelude.{◌≡◌, true, ◌≤◌, length, take};
ghost use Rattle.file_calendar.specs.Calendars.{calendar_answer};
ghost use Rattle.table.specs.Table.{open_in};
ghost use Rattle.session_parts.specs.TermsParts.{counted, ComesNext};

use file_calendar::FileCalendar;
use session_parts::TermsProgress;
use streams::Sent;

// What standard output has taken of the session's text.
// Its field is private: only this file makes one, so its count grew by what write_out was shown to come next.
#[derive(Clone, Copy)]
pub struct SentText {
    sent: Sent,
}

// Before the first write.
pub fn no_text() -> SentText
    ensures { (result.sent.open ≡ true) × (result.sent.bytes ≡ 0) }
{
    let sent = streams::nothing_sent();
    SentText { sent }
}

// Whether the output has taken all.
pub fn is_open(text: SentText) -> bool
    ensures { result ≡ text.sent.open }
{
    streams::is_open(text.sent)
}

// Writes the bytes at the start of a buffer, which have to be what comes next of the session's text from one place in the input to another.
pub(crate) fn write_out(
    rt: HostRuntime,
    text: SentText,
    file: &[u8],
    judged: FileCalendar,
    part: &[u8],
    from: TermsProgress,
    to: TermsProgress,
    out: &[u8],
) -> SentText
    requires { (to.length ≤ length out.now) × ComesNext (open_in (calendar_answer judged) file.now) part.now from to (take to.length out.now) }
    ensures { result.sent.open ≡ true → result.sent.bytes ≡ counted text.sent.bytes to.length }
{
    let n = to.length;
    let sent = streams::write_next(rt, text.sent, b"terms: standard output", &out[..n]);
    SentText { sent }
}
