// The lines that `reconcile` prints of a product, in a lent buffer.
#![tactic(auto)]

ghost use Rattle.std.specs.Prelude.{◌≡◌, ◌+◌, ◌≤◌, length, take};
ghost use Rattle.session_lines.specs.CommandLines.{empty_line};
ghost use Rattle.file_text_print.specs.Contents.{LineWith};
ghost use Rattle.delivery_differences.specs.Differences.{difference_of, rows_at};
ghost use Rattle.delivery_reports.specs.Reports.{why_text, delivered_text, right_text, difference_text, unknown_text, differences_heading, another_key, ReportLinesIn};

use delivery_differences::{DeliveredRow, Difference, Why, next_difference};
use listing::Maturity;
use product::Kind;
use session_lines::Line;

// The next key that differs, 65,536 where there is none, how many bytes of the text stand in the buffer, and how many lines they are.
#[derive(Clone, Copy)]
pub struct ReportProgress {
    pub next: u32,
    pub length: usize,
    pub lines: u32,
}

// A line with the reason more.
fn with_why(line: Line, why: Why) -> Line
    ensures { LineWith line (why_text why) result }
{
    match why {
        Why::Same => line,
        Why::Missing => session_lines::feed(line, b"missing"),
        Why::Extra => session_lines::feed(line, b"extra"),
        Why::Twice => session_lines::feed(line, b"twice"),
        Why::Day => session_lines::feed(line, b"day"),
        Why::Number => session_lines::feed(line, b"number"),
        Why::DaysBack => session_lines::feed(line, b"days_back"),
    }
}

// A line with what was delivered more.
fn with_delivered(line: Line, why: Why, row: DeliveredRow) -> Line
    ensures { LineWith line (delivered_text why row) result }
{
    match why {
        Why::Same => line,
        Why::Missing => line,
        Why::Extra => file_text_print::with_day(line, row.day),
        Why::Twice => file_text_print::with_day(line, row.day),
        Why::Day => file_text_print::with_day(line, row.day),
        Why::Number => file_text_print::with_decimal(line, row.number),
        Why::DaysBack => file_text_print::with_decimal(line, row.back),
    }
}

// A line with what is right more.
fn with_right(line: Line, why: Why, m: Maturity) -> Line
    ensures { LineWith line (right_text why m) result }
{
    match why {
        Why::Same => line,
        Why::Missing => file_text_print::with_day(line, m.day),
        Why::Extra => line,
        Why::Twice => file_text_print::with_day(line, m.day),
        Why::Day => file_text_print::with_day(line, m.day),
        Why::Number => file_text_print::with_decimal(line, m.number),
        Why::DaysBack => file_text_print::with_decimal(line, m.back),
    }
}

// The line of a key that differs.
pub fn difference_line(kind: Kind, id: [u8; 4], key: u16, d: Difference) -> Line
    ensures { LineWith empty_line (difference_text kind id key d) result }
{
    let why = d.why;
    let row = d.delivered;
    let m = d.right;
    let begun = file_text_print::with_id(session_lines::empty_line(), id);
    let name = file_text_print::with_name(session_lines::extend(begun, b','), kind, key);
    let reason = with_why(session_lines::extend(name, b','), why);
    let delivered = with_delivered(session_lines::extend(reason, b','), why, row);
    let right = with_right(session_lines::extend(delivered, b','), why, m);
    session_lines::extend(right, b'\n')
}

// The line of an id that is not in the file.
pub fn unknown_line(id: [u8; 4]) -> Line
    ensures { LineWith empty_line (unknown_text id) result }
{
    session_lines::feed(
        file_text_print::with_id(session_lines::empty_line(), id),
        b",,product,,\n",
    )
}

// The heading.
pub fn heading_line() -> Line
    ensures { LineWith empty_line differences_heading result }
{
    session_lines::feed(
        session_lines::empty_line(),
        b"product,maturity,why,delivered,right\n",
    )
}

// The line of a key, by the first n of 15 maturities and by the rows at some places of five lists.
fn key_line(
    kind: Kind,
    id: [u8; 4],
    maturities: [Maturity; 15],
    n: usize,
    places: &[u16],
    keys: &[u16],
    days: &[u16],
    fulls: &[u8],
    numbers: &[u16],
    backs: &[u16],
    key: u16,
) -> Line
    ensures { LineWith empty_line (difference_text kind id key (difference_of (take n maturities) (rows_at keys.now days.now fulls.now numbers.now backs.now places.now) key)) result }
{
    let d = delivery_differences::difference_at(
        maturities, n, places, keys, days, fulls, numbers, backs, key,
    );
    difference_line(kind, id, key, d)
}

// Whether there is another key, and room for its line.
fn goes_on(next: u32, out: &[u8], length: usize) -> bool
    ensures { result ≡ another_key next out.now length }
{
    if 65536 <= next {
        return false;
    }
    if out.len() < 64 {
        return false;
    }
    length <= out.len() - 64
}

// The lines of a product's keys that differ, from a key on, in a lent buffer from its start, as long as it has room for another line of 64 bytes.
// The product has the first n of 15 maturities, none without a table, and the rows at some places of five lists.
pub fn print_differences(
    kind: Kind,
    id: [u8; 4],
    listed: [Maturity; 15],
    n: usize,
    places: &[u16],
    keys: &[u16],
    days: &[u16],
    fulls: &[u8],
    numbers: &[u16],
    backs: &[u16],
    from: u32,
    out: &mut [u8],
) -> ReportProgress
    ensures { ReportLinesIn kind id (take n listed) (rows_at keys.now days.now fulls.now numbers.now backs.now places.now) from out.old out.new result }
{
    let mut next = next_difference(listed, n, places, keys, days, fulls, numbers, backs, from);
    let mut length: usize = 0;
    let mut lines: u32 = 0;
    while goes_on(next, out, length) {
        let line = key_line(
            kind,
            id,
            listed,
            n,
            places,
            keys,
            days,
            fulls,
            numbers,
            backs,
            next as u16,
        );
        length = file_text_print::append(out, length, line);
        lines += 1;
        next = next_difference(
            listed,
            n,
            places,
            keys,
            days,
            fulls,
            numbers,
            backs,
            next + 1,
        );
    }
    ReportProgress {
        next,
        length,
        lines,
    }
}
