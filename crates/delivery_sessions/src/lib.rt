// The answers of `query` to all lines that end in a part of its input, and to a last line that no line feed ends.
#![tactic(auto)]

ghost use Rattle.std.specs.Prelude.{◌≡◌, true, ◌<◌, length};
ghost use Rattle.session_text.specs.Buffer.{roomy};
ghost use Rattle.session_parts.specs.TermsParts.{another};
ghost use Rattle.delivery_queries.specs.Queries.{next_number, standing_in};
ghost use Rattle.delivery_sessions.specs.QueryParts.{QueryNext, QueryAnswers, QueryLastAnswer};

use delivery_items::LongLine;
use delivery_notices::NoticesTaken;
use delivery_queries::LineAnswer;
use file_calendar::FileCalendar;

// The number of the line that is begun, its bytes so far, the place in the part of the input, how many bytes of answers stand in the buffer,
// and whether an answer so far is `NO n` or `BAD K`.
#[derive(Clone, Copy)]
pub struct QueryProgress {
    pub number: u64,
    pub line: LongLine,
    pub at: usize,
    pub length: usize,
    pub refused: bool,
}

// The number of the next line.
fn next_number(k: u64) -> u64
    ensures { result ≡ next_number k }
{
    if k < 18446744073709551615 {
        return k + 1;
    }
    k
}

// The answer to the line that goes on at a place, if it ends in the part; else the line with all the rest of the part.
fn answer_next(
    file: &[u8],
    judged: FileCalendar,
    t: NoticesTaken,
    calls: &[u32],
    ids: &[u8],
    refusals: &mut [u8],
    s: QueryProgress,
    part: &[u8],
    out: &mut [u8],
) -> QueryProgress
    requires { (s.at < length part.now) × (roomy out.old s.length ≡ true) }
    ensures { QueryNext (standing_in judged file.now t calls.now ids.now (length refusals.old)) part.now out.old out.new s result }
{
    let begun = s.line;
    let number = s.number;
    let e = delivery_items::line_from(begun, part, s.at);
    let line = e.line;
    if !e.ended {
        return QueryProgress {
            number,
            line,
            at: e.next,
            length: s.length,
            refused: s.refused,
        };
    }
    let a = delivery_queries::answer_line(
        file, judged, t, calls, ids, refusals, number, line, out, s.length,
    );
    let empty = delivery_items::empty_long_line();
    let next = next_number(number);
    QueryProgress {
        number: next,
        line: empty,
        at: e.next,
        length: a.next,
        refused: s.refused | a.refused,
    }
}

// Whether the part goes on at a place, and the buffer has room for another answer.
fn goes_on(part: &[u8], at: usize, out: &[u8], n: usize) -> bool
    ensures { result ≡ another part.now at out.now n }
{
    if part.len() <= at {
        return false;
    }
    if out.len() < 512 {
        return false;
    }
    n <= out.len() - 512
}

// The answers to the lines that end in a part of the input from a line begun and a place on,
// in a lent buffer from its start, as long as it has room for another answer of 512 bytes.
// A buffer of fewer bytes, and a place past the part, leave all as it is. The verdict on the file and the notices of two lists are at hand.
pub fn answer_part(
    file: &[u8],
    judged: FileCalendar,
    t: NoticesTaken,
    calls: &[u32],
    ids: &[u8],
    refusals: &mut [u8],
    from: QueryProgress,
    part: &[u8],
    out: &mut [u8],
) -> QueryProgress
    ensures { QueryAnswers (standing_in judged file.now t calls.now ids.now (length refusals.old)) from.number from.refused from.line part.now from.at out.old out.new result }
{
    let mut s = from;
    s.length = 0;
    while goes_on(part, s.at, out, s.length) {
        s = answer_next(file, judged, t, calls, ids, refusals, s, part, out);
    }
    s
}

// The answer to a last line that no line feed ends, in a lent buffer from its start, its length, and whether it or one before it is `NO n` or `BAD K`.
// A line with no bytes has none, and a buffer of fewer than 512 bytes stays as it is.
pub fn answer_last(
    file: &[u8],
    judged: FileCalendar,
    t: NoticesTaken,
    calls: &[u32],
    ids: &[u8],
    refusals: &mut [u8],
    s: QueryProgress,
    out: &mut [u8],
) -> LineAnswer
    ensures { QueryLastAnswer (standing_in judged file.now t calls.now ids.now (length refusals.old)) s.number s.refused s.line out.old out.new result.next result.refused }
{
    let number = s.number;
    let line = s.line;
    if line.length == 0 {
        return LineAnswer {
            next: 0,
            refused: s.refused,
        };
    }
    let a = delivery_queries::answer_line(
        file, judged, t, calls, ids, refusals, number, line, out, 0,
    );
    LineAnswer {
        next: a.next,
        refused: s.refused | a.refused,
    }
}
