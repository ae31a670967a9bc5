// The rows of a delivery, in a lent buffer.
#![tactic(auto)]

ghost use Rattle.std.specs.Prelude.{◌≡◌, ◌+◌, ◌≤◌, length};
ghost use Rattle.session_lines.specs.CommandLines.{empty_line};
ghost use Rattle.file_text_print.specs.Contents.{LineWith};
ghost use Rattle.delivery_rows.specs.Delivery.{delivery_row, row_text, delivery_heading};
ghost use Rattle.delivery_rows.specs.Printed.{RowsIn, rows_or_none, rows_first, has_room};

use listing::Maturity;
use product::Kind;
use session_lines::Line;
use table::Table;

// The heading of the rows.
pub fn delivery_heading_line() -> Line
    ensures { LineWith empty_line delivery_heading result }
{
    file_text_print::with_bytes(
        session_lines::empty_line(),
        b"product,number,maturity,last_trading_day,days_back\n",
    )
}

// The row of a maturity.
fn row_line(id: [u8; 4], kind: Kind, m: Maturity) -> Line
    ensures { LineWith empty_line (row_text (delivery_row id kind m)) result }
{
    let first = file_text_print::with_id(session_lines::empty_line(), id);
    let number = file_text_print::with_decimal(session_lines::extend(first, b','), m.number);
    let name = file_text_print::with_name(session_lines::extend(number, b','), kind, m.key);
    let day = file_text_print::with_day(session_lines::extend(name, b','), m.day);
    let back = file_text_print::with_decimal(session_lines::extend(day, b','), m.back);
    session_lines::extend(back, b'\n')
}

// The rows of the first n maturities.
fn put_rows(
    out: &mut [u8],
    at: usize,
    id: [u8; 4],
    kind: Kind,
    maturities: [Maturity; 15],
    n: usize,
) -> usize
    requires { (n ≤ 15) × (at + 1024 ≤ length out.old) }
    ensures { RowsIn out.old out.new at result (rows_first id kind maturities n) }
{
    let mut next = at;
    for i in 0..n {
        let m = maturities[i];
        next = file_text_print::append(out, next, row_line(id, kind, m));
    }
    next
}

// Whether a buffer has room for any table's rows.
fn has_room(out: &[u8], at: usize) -> bool
    ensures { result ≡ has_room out.now at }
{
    if out.len() < 1024 {
        return false;
    }
    at <= out.len() - 1024
}

// The rows of a product's table from a place of a lent buffer on, and the place after them. Without room for 1,024 bytes nothing is written.
pub fn print_rows(out: &mut [u8], at: usize, id: [u8; 4], t: Table) -> usize
    ensures { RowsIn out.old out.new at result (rows_or_none out.old at id t) }
{
    if !has_room(out, at) {
        return at;
    }
    let p = t.product;
    let kind = p.kind;
    let maturities = t.maturities;
    let n = listing::places_of_kind(kind);
    put_rows(out, at, id, kind, maturities, n as usize)
}
