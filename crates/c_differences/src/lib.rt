// The rows of a delivery that came from elsewhere, and their differences, as programs in other languages ask for them.
#![tactic(auto)]

ghost use Rattle.std.specs.Prelude.{◌≡◌, cond, [], ◌≤◌, length, take};
ghost use Rattle.session_lines.specs.CommandLines.{empty_line, fed};
ghost use Rattle.delivery_products.specs.IdList.{id_in};
ghost use Rattle.delivery_receipts.specs.Receiving.{received_to, rows_for, first_unknown};
ghost use Rattle.delivery_reports.specs.Reports.{ReportLinesIn, unknown_text, differences_heading};
ghost use Rattle.c_delivery.specs.Delivered.{text_line};
ghost use Rattle.c_differences.specs.Found.{line_start, receiving_of, receipt_from, ReceivedIn, judgeable, listed_count, room_for, no_lines, DifferencesIn};

use c_delivery::{FlatDelivered, TextLine};
use c_types::FlatProduct;
use delivery_receipts::Receiving;
use delivery_reports::ReportProgress;
use listing::Maturity;
use product::Kind;

// The state of reading rows: the place in the text from which the next line is read, how many good rows and how many lines there were,
// the number of the last line where it is bad, else 0, whether a line was there that is not empty, and whether there was a good row too many.
// All zeros before the first line.
#[repr(C)]
#[derive(Clone, Copy)]
pub struct FlatReceipt {
    pub next: usize,
    pub rows: u32,
    pub lines: u32,
    pub bad: u32,
    pub begun: bool,
    pub over: bool,
}

// Lines of differences in a lent buffer: the number of a refusal, or 0; whether there was room for the places;
// the key from which the next call goes on, 65,536 where there is no more; how many lines and bytes stand there.
#[repr(C)]
#[derive(Clone, Copy)]
pub struct FoundLines {
    pub refusal: u8,
    pub fits: bool,
    pub next: u32,
    pub lines: u32,
    pub length: usize,
}

// Where the next line begins: at the start of the text after its mark.
fn line_start(text: &[u8], next: usize) -> usize
    ensures { result ≡ line_start text.now next }
{
    if next != 0 {
        return next;
    }
    delivery_lines::mark_length(text)
}

// The state as the library holds it.
fn receiving_of(s: FlatReceipt) -> Receiving
    ensures { result ≡ receiving_of s }
{
    Receiving {
        rows: s.rows,
        begun: s.begun,
        lines: s.lines,
        over: s.over,
        bad: 0,
    }
}

// The state for other languages, with the place of the next line.
fn receipt_from(s: Receiving, next: usize) -> FlatReceipt
    ensures { result ≡ receipt_from s next }
{
    FlatReceipt {
        next,
        rows: s.rows,
        lines: s.lines,
        bad: s.bad,
        begun: s.begun,
        over: s.over,
    }
}

// The place after a line: after its line feed, or at the text's end.
fn place_after(ended: bool, next: usize, length: usize) -> usize
    ensures { result ≡ cond ended next length }
{
    if ended {
        return next;
    }
    length
}

// Takes the next line of a text of rows. A good row goes to six lent lists.
pub fn receive(
    file: &[u8],
    s: FlatReceipt,
    text: &[u8],
    ids: &mut [u8],
    keys: &mut [u16],
    days: &mut [u16],
    fulls: &mut [u8],
    numbers: &mut [u16],
    backs: &mut [u16],
) -> FlatReceipt
    ensures { ReceivedIn file.now s text.now (record { ids = ids.old; keys = keys.old; days = days.old; fulls = fulls.old; numbers = numbers.old; backs = backs.old }) (record { ids = ids.new; keys = keys.new; days = days.new; fulls = fulls.new; numbers = numbers.new; backs = backs.new }) result }
{
    let from = line_start(text, s.next);
    let state = receiving_of(s);
    if text.len() <= from {
        return receipt_from(state, text.len());
    }
    let end = delivery_items::line_from(delivery_items::empty_long_line(), text, from);
    let line = end.line;
    let next = place_after(end.ended, end.next, text.len());
    if !end.ended & (line.length == 0) {
        return receipt_from(state, next);
    }
    let after = delivery_receipts::receive_line(
        file, state, line, ids, keys, days, fulls, numbers, backs,
    );
    receipt_from(after, next)
}

// Whether a product has a kind and a table of it, where there is one, is sound.
fn is_judgeable(product: FlatProduct, d: FlatDelivered) -> bool
    ensures { result ≡ judgeable product d }
{
    if !product::kind_right(product.kind) {
        return false;
    }
    if d.refusal != 0 {
        return true;
    }
    table::is_sound(c_types::unflat_table(d.table))
}

// How many maturities a product has listed; none without a table.
fn listed_count(d: FlatDelivered) -> usize
    ensures { result ≡ listed_count d }
{
    if d.refusal != 0 {
        return 0;
    }
    let t = d.table;
    let p = c_types::unflat_product(t.product);
    let kind = p.kind;
    let n = listing::places_of_kind(kind);
    n as usize
}

// Whether a list of so many numbers has room for the places of so many rows.
fn has_room(rows: u32, places: usize) -> bool
    ensures { result ≡ room_for rows places }
{
    (rows <= 65536) & (rows as usize <= places)
}

// Nothing was looked for.
fn no_lines(refusal: u8) -> FoundLines
    ensures { result ≡ no_lines refusal }
{
    FoundLines {
        refusal,
        fits: false,
        next: 65536,
        lines: 0,
        length: 0,
    }
}

// The lines of a product's keys that differ, from a key on, by the first n of 15 maturities and by its rows among the first of six lists.
fn own_lines(
    kind: Kind,
    id: [u8; 4],
    maturities: [Maturity; 15],
    n: usize,
    rows: u32,
    ids: &[u8],
    keys: &[u16],
    days: &[u16],
    fulls: &[u8],
    numbers: &[u16],
    backs: &[u16],
    places: &mut [u16],
    from: u32,
    out: &mut [u8],
) -> ReportProgress
    requires { (rows ≤ 65536) × (rows ≤ length places.old) }
    ensures { (ReportLinesIn kind id (take n maturities) (rows_for id (received_to (record { ids = ids.now; keys = keys.now; days = days.now; fulls = fulls.now; numbers = numbers.now; backs = backs.now }) rows)) from out.old out.new result) × (length places.new ≡ length places.old) }
{
    let size = delivery_receipts::places_of(id, ids, rows, places);
    delivery_reports::print_differences(
        kind,
        id,
        maturities,
        n,
        &places[..size],
        keys,
        days,
        fulls,
        numbers,
        backs,
        from,
        out,
    )
}

// The lines of differences of a product, from a key on, at the start of a lent buffer. A list has room for the places of its rows.
pub fn differences(
    product: FlatProduct,
    delivered: FlatDelivered,
    rows: u32,
    ids: &[u8],
    keys: &[u16],
    days: &[u16],
    fulls: &[u8],
    numbers: &[u16],
    backs: &[u16],
    places: &mut [u16],
    from: u32,
    out: &mut [u8],
) -> FoundLines
    ensures { DifferencesIn product delivered (received_to (record { ids = ids.now; keys = keys.now; days = days.now; fulls = fulls.now; numbers = numbers.now; backs = backs.now }) rows) rows from places.old places.new out.old out.new result }
{
    if !is_judgeable(product, delivered) {
        return no_lines(10);
    }
    if !has_room(rows, places.len()) {
        return no_lines(0);
    }
    let p = c_types::unflat_product(product);
    let id = p.id;
    let kind = p.kind;
    let t = delivered.table;
    let maturities = t.maturities;
    let n = listed_count(delivered);
    let r = own_lines(
        kind, id, maturities, n, rows, ids, keys, days, fulls, numbers, backs, places, from, out,
    );
    FoundLines {
        refusal: 0,
        fits: true,
        next: r.next,
        lines: r.lines,
        length: r.length,
    }
}

// The heading of the differences.
pub fn differences_heading() -> TextLine
    ensures { result ≡ text_line (fed empty_line differences_heading) }
{
    c_delivery::text_line(delivery_reports::heading_line())
}

// The line of row i where it is the first with its id, and the file has no such id. Another row has no bytes.
pub fn unknown_product(file: &[u8], ids: &[u8], i: u32) -> TextLine
    ensures { result ≡ text_line (fed empty_line (cond (first_unknown file.now ids.now i) (unknown_text (id_in ids.now i)) [])) }
{
    if !delivery_receipts::is_first_unknown(file, ids, i) {
        return c_delivery::text_line(session_lines::empty_line());
    }
    c_delivery::text_line(delivery_reports::unknown_line(delivery_products::id_in(ids, i)))
}
