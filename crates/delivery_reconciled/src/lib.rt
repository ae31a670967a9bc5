// What `reconcile` prints of a place, of the ids that are not in the file, and what it tells.
#![tactic(auto)]

ghost use Rattle.std.specs.Prelude.{◌≡◌, cond, ◌+◌, ◌≤◌, eqb, length};
ghost use Rattle.session_lines.specs.CommandLines.{empty_line};
ghost use Rattle.file_text_print.specs.Contents.{LineWith};
ghost use Rattle.file_calendar.specs.Calendars.{calendar_answer};
ghost use Rattle.table.specs.Table.{open_in};
ghost use Rattle.delivery_reconciled.specs.Reconciled.{kind_at, opening_text, summary_text};
ghost use Rattle.delivery_reconciled.specs.Standings.{nothing_listed, ListedIn, id_row_text, another_stranger, StrangersIn};

use delivery_reports::ReportProgress;
use file_calendar::FileCalendar;
use listing::Maturity;
use product::Kind;
use session_lines::Line;

// What a place holds: whether the buffer has room for the refusals, whether there is a record, the id and the kind of its product,
// and how many of 15 maturities its table lists after the notices; none without a table.
#[derive(Clone, Copy)]
pub struct PlaceListed {
    pub fits: bool,
    pub holds: bool,
    pub id: [u8; 4],
    pub kind: Kind,
    pub listed: usize,
    pub maturities: [Maturity; 15],
}

// The kind of the product at a place.
fn kind_at(file: &[u8], place: usize) -> Kind
    ensures { result ≡ kind_at file.now place }
{
    let p = file_load::product_at(file, place / 15, place % 15);
    p.kind
}

// A place with no table.
fn nothing_listed(fits: bool, holds: bool, id: [u8; 4], kind: Kind) -> PlaceListed
    ensures { result ≡ nothing_listed fits holds id kind }
{
    let maturities = listing::unused_places();
    PlaceListed {
        fits,
        holds,
        id,
        kind,
        listed: 0,
        maturities,
    }
}

// The maturities that the table of the product at a place lists after the first notices of two lists. The file's verdict by `judge` is at hand.
// The buffer has room for the refusals of so many notices, or nothing is listed.
pub fn listed_at(
    file: &[u8],
    judged: FileCalendar,
    place: usize,
    date: u16,
    calls: &[u32],
    ids: &[u8],
    count: u32,
    refusals: &mut [u8],
) -> PlaceListed
    ensures { ListedIn (open_in (calendar_answer judged) file.now) file.now place date count calls.now ids.now refusals.old refusals.new result }
{
    let id = file_ids::id_at(file, place);
    let kind = kind_at(file, place);
    if refusals.len() < count as usize {
        return nothing_listed(false, false, id, kind);
    }
    if !file_ids::is_record(file, place) {
        return nothing_listed(true, false, id, kind);
    }
    let d = delivery_tables::deliver(file, judged, id, date, calls, ids, count, refusals);
    if d.refusal != 0 {
        return nothing_listed(true, true, id, kind);
    }
    let t = d.table;
    let p = t.product;
    let own = p.kind;
    let maturities = t.maturities;
    let listed = listing::places_of_kind(own) as usize;
    PlaceListed {
        fits: true,
        holds: true,
        id,
        kind,
        listed,
        maturities,
    }
}

// The line of the refused opening of the product at a place; no bytes where it is accepted, or there is no record.
pub fn opening_line(file: &[u8], judged: FileCalendar, place: usize, date: u16, opened: u32) -> Line
    ensures { LineWith empty_line (opening_text (open_in (calendar_answer judged) file.now) file.now opened date place) result }
{
    if !file_ids::is_record(file, place) {
        return session_lines::empty_line();
    }
    let id = file_ids::id_at(file, place);
    let o = table::open_in(file, judged, id, date);
    delivery_refusals::refusal_text(opened, o.refusal, id)
}

// The last line: products of the file, good rows, lines under the heading, bad lines.
pub fn summary_line(products: u64, rows: u64, differ: u64, bad: u64) -> Line
    ensures { LineWith empty_line (summary_text products rows differ bad) result }
{
    let first = delivery_answers::with_number(session_lines::empty_line(), products);
    let second = delivery_answers::with_number(session_lines::feed(first, b" products, "), rows);
    let third = delivery_answers::with_number(session_lines::feed(second, b" rows, "), differ);
    let last = delivery_answers::with_number(session_lines::feed(third, b" differ, "), bad);
    session_lines::feed(last, b" bad\n")
}

// The line of row i of a list of ids where it is the first with an id that is not in the file; else no bytes.
fn id_row_line(file: &[u8], ids: &[u8], i: u32) -> Line
    ensures { LineWith empty_line (id_row_text file.now ids.now i) result }
{
    if !delivery_receipts::is_first_unknown(file, ids, i) {
        return session_lines::empty_line();
    }
    delivery_reports::unknown_line(delivery_products::id_in(ids, i))
}

// 1 for a line that has bytes.
fn line_count(line: Line) -> u32
    ensures { (result ≡ cond (eqb line.length 0) 0 1) × (result ≤ 1) }
{
    if line.length == 0 {
        return 0;
    }
    1
}

// Whether there is another row, and room for its line.
fn goes_on(next: u32, n: u32, out: &[u8], length: usize) -> bool
    ensures { result ≡ another_stranger next n out.now length }
{
    if n <= next {
        return false;
    }
    if out.len() < 64 {
        return false;
    }
    length <= out.len() - 64
}

// The lines of the ids that are not in the file, of the rows from one on up to row n,
// in a lent buffer from its start, as long as it has room for another line of 64 bytes.
pub fn print_strangers(file: &[u8], ids: &[u8], n: u32, from: u32, out: &mut [u8]) -> ReportProgress
    ensures { StrangersIn file.now ids.now n from out.old out.new result }
{
    let mut next = from;
    let mut length: usize = 0;
    let mut lines: u32 = 0;
    while goes_on(next, n, out, length) {
        let line = id_row_line(file, ids, next);
        length = file_text_print::append(out, length, line);
        lines += line_count(line);
        next += 1;
    }
    ReportProgress {
        next,
        length,
        lines,
    }
}
