// The answers of a session written to standard output: to the lines that end in a part of the input, and to a last line that no line feed ends.
#![tactic(auto)]

mod output;

ghost use Rattle.std.specs.Prelude.{◌≡◌, true, [], ◌≤◌, length};
ghost use Rattle.file_calendar.specs.Calendars.{calendar_answer};
ghost use Rattle.table.specs.Table.{open_in};
ghost use Rattle.session_command.specs.Sessions.{rest_text, rest_kept};
ghost use Rattle.session_parts.specs.TermsParts.{counted, Handed};

use file_calendar::FileCalendar;
pub use output::{SentText, is_open, no_text};
use session_command::Kept;
use session_lines::Line;
use session_parts::TermsProgress;
use streams::Input;

// What is kept from one part of the input to the next: the table, the line so far, and what has been sent of the text.
#[derive(Clone, Copy)]
pub struct Carried {
    pub kept: Kept,
    pub line: Line,
    pub text: SentText,
}

// Writes the answers to all lines that end in a part of the input. A write that fails ends it.
// Of a buffer with fewer than 512 bytes nothing is done.
pub fn write_part(
    rt: HostRuntime,
    k: Carried,
    file: &[u8],
    judged: FileCalendar,
    part: &[u8],
    out: &mut [u8],
) -> Carried
    ensures { 512 ≤ length out.old → result.text.sent.open ≡ true → Handed (open_in (calendar_answer judged) file.now) k.kept k.line part.now k.text.sent.bytes result.kept result.line [] result.text.sent.bytes }
{
    if out.len() < 512 {
        return k;
    }
    let kept = k.kept;
    let line = k.line;
    let mut text = k.text;
    let mut s = TermsProgress {
        kept,
        line,
        at: 0,
        length: 0,
    };
    while s.at < part.len() {
        let p = session_parts::answer_part(file, judged, s.kept, s.line, part, s.at, out);
        text = output::write_out(rt, text, file, judged, part, s, p, out);
        s = p;
        if !output::is_open(text) {
            return Carried { kept, line, text };
        }
    }
    let after = s.kept;
    let begun = s.line;
    Carried {
        kept: after,
        line: begun,
        text,
    }
}

// What has been sent of the text at the end of a session, and whether an answer was `NO n` or `BAD`.
#[derive(Clone, Copy)]
pub struct SessionEnd {
    pub text: SentText,
    pub refused: bool,
}

// Writes the answer to a last line that no line feed ends, after the last read: where one is left, or the buffer has fewer than 512 bytes, nothing is done.
pub fn write_last(
    rt: HostRuntime,
    k: Carried,
    file: &[u8],
    judged: FileCalendar,
    input: Input,
    out: &mut [u8],
) -> SessionEnd
    ensures { 512 ≤ length out.old → input.left ≡ 0 → (result.refused ≡ (rest_kept (open_in (calendar_answer judged) file.now) k.kept k.line []).refused) × (result.text.sent.open ≡ true → result.text.sent.bytes ≡ counted k.text.sent.bytes (length (rest_text (open_in (calendar_answer judged) file.now) k.kept k.line []))) }
{
    let text = k.text;
    if out.len() < 512 {
        return SessionEnd {
            text,
            refused: false,
        };
    }
    if 0 < streams::reads_left(input) {
        return SessionEnd {
            text,
            refused: false,
        };
    }
    let kept = k.kept;
    let line = k.line;
    let a = session_parts::answer_last(file, judged, kept, line, out);
    let from = TermsProgress {
        kept,
        line,
        at: 0,
        length: 0,
    };
    let to = TermsProgress {
        kept,
        line,
        at: 0,
        length: a.length,
    };
    let all = output::write_out(rt, text, file, judged, file, from, to, out);
    SessionEnd {
        text: all,
        refused: a.refused,
    }
}
