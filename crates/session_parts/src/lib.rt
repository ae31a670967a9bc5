// The answers to all lines that end in a part of the input, and to a last line that no line feed ends.
#![tactic(auto)]

ghost use Rattle.std.specs.Prelude.{◌≡◌, true, ◌≤◌, ◌<◌, length};
ghost use Rattle.file_calendar.specs.Calendars.{calendar_answer};
ghost use Rattle.table.specs.Table.{open_in};
ghost use Rattle.session_text.specs.Buffer.{roomy};
ghost use Rattle.session_parts.specs.TermsParts.{another, progress_with, KnownStep, Next, Answers, LastAnswer};

use file_calendar::FileCalendar;
use session_apart::Replied;
use session_command::Kept;
use session_lines::Line;

// What is kept, the line so far, the place in the part of the input, and how many bytes of answers stand in the buffer.
#[derive(Clone, Copy)]
pub struct TermsProgress {
    pub kept: Kept,
    pub line: Line,
    pub at: usize,
    pub length: usize,
}

// The same on the way, where the maps of the table's calendar are apart:
// what is kept but for them, with the answer to question 10 and how many bytes of answers stand in the buffer;
// the line so far, and the place in the part.
#[derive(Clone, Copy)]
struct Step {
    replied: Replied,
    line: Line,
    at: usize,
}

// The answer to the line that goes on at a place, if it ends in the part; else the line with all the rest of the part.
// The maps of the table's calendar are lent; question 10 of the table, and what it says of the verdict's calendar, are at hand.
fn answer_next(
    file: &[u8],
    judged: FileCalendar,
    right: bool,
    s: Step,
    closed: &mut [u8; 736],
    exchange: &mut [u8; 736],
    part: &[u8],
    out: &mut [u8],
) -> Step
    requires { (s.at < length part.now) × (roomy out.old s.replied.at ≡ true) × KnownStep judged right s closed.old exchange.old }
    ensures { Next (open_in (calendar_answer judged) file.now) part.now out.old out.new (progress_with s closed.old exchange.old) (progress_with result closed.new exchange.new) × KnownStep judged right result closed.new exchange.new }
{
    let k = s.replied;
    let begun = s.line;
    let at = s.at;
    let end = session_lines::byte_from(part, at, b'\n');
    let line = session_lines::feed(begun, &part[at..end]);
    if part.len() <= end {
        return Step {
            replied: k,
            line,
            at: end,
        };
    }
    let after = session_apart::reply(file, judged, right, k, closed, exchange, line, out);
    let empty = session_lines::empty_line();
    let next = end + 1;
    Step {
        replied: after,
        line: empty,
        at: next,
    }
}

// Whether the part goes on at a place, and the buffer has room for another answer.
fn goes_on(part: &[u8], at: usize, out: &[u8], n: usize) -> bool
    ensures { result ≡ another part.now at out.now n }
{
    if part.len() <= at {
        return false;
    }
    if out.len() < 512 {
        return false;
    }
    n <= out.len() - 512
}

// How far a part was answered, the table with its maps again.
fn put_together(s: Step, closed: [u8; 736], exchange: [u8; 736]) -> TermsProgress
    ensures { result ≡ progress_with s closed exchange }
{
    let k = s.replied;
    let line = s.line;
    let rest = k.rest;
    let table = session_apart::table_of(rest, closed, exchange);
    TermsProgress {
        kept: Kept {
            opened: k.opened,
            table,
            refused: k.refused,
        },
        line,
        at: s.at,
        length: k.at,
    }
}

// The answers to the lines that end in a part of the input from a place on,
// in a lent buffer from its start, as long as it has room for another answer of 512 bytes.
// A buffer of fewer bytes, and a place past the part, leave all as it is.
// The verdict on the file is at hand, and question 10 is asked once, of the table that is handed in.
pub fn answer_part(
    file: &[u8],
    judged: FileCalendar,
    kept: Kept,
    line: Line,
    part: &[u8],
    from: usize,
    out: &mut [u8],
) -> TermsProgress
    ensures { Answers (open_in (calendar_answer judged) file.now) kept line part.now from out.old out.new result }
{
    let right = table::is_calendar_sound(judged.calendar);
    let t = kept.table;
    let ten = table::is_sound(t);
    let cal = t.calendar;
    let mut closed = cal.closed;
    let mut exchange = cal.exchange;
    let rest = session_apart::table_rest(t);
    let replied = Replied {
        opened: kept.opened,
        rest,
        ten,
        at: 0,
        refused: kept.refused,
    };
    let mut s = Step {
        replied,
        line,
        at: from,
    };
    while goes_on(part, s.at, out, s.replied.at) {
        s = answer_next(
            file,
            judged,
            right,
            s,
            &mut closed,
            &mut exchange,
            part,
            out,
        );
    }
    put_together(s, closed, exchange)
}

// How many bytes the answer to a last line has, and whether an answer was `NO n` or `BAD`.
#[derive(Clone, Copy)]
pub struct LastLine {
    pub length: usize,
    pub refused: bool,
}

// The answer to a last line that no line feed ends, in a lent buffer from its start.
// A line with no bytes has none, and a buffer of fewer than 512 bytes stays as it is.
pub fn answer_last(
    file: &[u8],
    judged: FileCalendar,
    kept: Kept,
    line: Line,
    out: &mut [u8],
) -> LastLine
    ensures { LastAnswer (open_in (calendar_answer judged) file.now) kept line out.old out.new result }
{
    if line.length == 0 {
        return LastLine {
            length: 0,
            refused: kept.refused,
        };
    }
    let a = session_command::answer(file, judged, kept, line, out, 0);
    LastLine {
        length: a.at,
        refused: a.kept.refused,
    }
}
