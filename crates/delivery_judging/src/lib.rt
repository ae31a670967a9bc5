// The lines of differences to standard output: of the products in the file's order, and of the ids that are not in the file.
#![tactic(auto)]

ghost use Rattle.std.specs.Prelude.{◌≡◌, true, ◌++◌, ◌≤◌, length, take};
ghost use Rattle.file_calendar.specs.Calendars.{calendar_answer};
ghost use Rattle.table.specs.Table.{open_in};
ghost use Rattle.delivery_differences.specs.Differences.{rows_at};
ghost use Rattle.delivery_reports.specs.Reports.{report_from, differing_from};
ghost use Rattle.delivery_parts.specs.PlaceParts.{parts_text};
ghost use Rattle.file_ids.specs.Ids.{place_count};
ghost use Rattle.delivery_reconciled.specs.Standings.{id_row_text};
ghost use Rattle.delivery_judging.specs.LinesOut.{Wrote, KeysOut, PlaceLists, PlaceOut, PlacesOut, StrangersOut};

use delivery_notices::NoticesTaken;
use delivery_reconciled::PlaceListed;
use delivery_reports::ReportProgress;
use file_calendar::FileCalendar;
use streams::Sent;

// What was written, and how many lines were.
#[derive(Clone, Copy)]
pub struct LinesPrinted {
    pub sent: Sent,
    pub lines: u64,
}

// Writes the lines of a product that stand at the start of a buffer, which have to be those of the keys from one on up to the next.
fn write_keys(
    rt: HostRuntime,
    sent: Sent,
    l: PlaceListed,
    places: &[u16],
    keys: &[u16],
    days: &[u16],
    fulls: &[u8],
    numbers: &[u16],
    backs: &[u16],
    from: u32,
    p: ReportProgress,
    out: &[u8],
) -> Sent
    requires { (p.length ≤ length out.now) × (report_from l.kind l.id (take l.listed l.maturities) (rows_at keys.now days.now fulls.now numbers.now backs.now places.now) from ≡ take p.length out.now ++ report_from l.kind l.id (take l.listed l.maturities) (rows_at keys.now days.now fulls.now numbers.now backs.now places.now) p.next) }
    ensures { Wrote sent p.length result }
{
    let n = p.length;
    streams::write_next(rt, sent, b"reconcile: standard output", &out[..n])
}

// The lines of a product by its rows at some places of five lists.
fn print_keys(
    rt: HostRuntime,
    sent: Sent,
    l: PlaceListed,
    places: &[u16],
    keys: &[u16],
    days: &[u16],
    fulls: &[u8],
    numbers: &[u16],
    backs: &[u16],
) -> LinesPrinted
    ensures { KeysOut l.kind l.id (take l.listed l.maturities) (rows_at keys.now days.now fulls.now numbers.now backs.now places.now) sent result }
{
    let kind = l.kind;
    let id = l.id;
    let maturities = l.maturities;
    let mut out = io::buffer();
    let mut so_far = sent;
    let mut lines: u64 = 0;
    let mut from: u32 = 0;
    while from < 65536 {
        let p = delivery_reports::print_differences(
            kind, id, maturities, l.listed, places, keys, days, fulls, numbers, backs, from,
            &mut out,
        );
        so_far = write_keys(
            rt, so_far, l, places, keys, days, fulls, numbers, backs, from, p, &out,
        );
        lines += p.lines as u64;
        from = p.next;
    }
    LinesPrinted {
        sent: so_far,
        lines,
    }
}

// The maturities that the table of the product at a place lists after the notices, of which there are at most 6,554.
fn listed_of(
    file: &[u8],
    judged: FileCalendar,
    place: usize,
    t: NoticesTaken,
    calls: &[u32],
    of: &[u8],
) -> PlaceListed
    ensures { PlaceLists (open_in (calendar_answer judged) file.now) file.now place t.date t.count calls.now of.now result }
{
    let mut refusals = [0u8; 6554];
    delivery_reconciled::listed_at(
        file,
        judged,
        place,
        t.date,
        calls,
        of,
        t.count,
        &mut refusals,
    )
}

// The lines of the product at a place.
fn print_place(
    rt: HostRuntime,
    sent: Sent,
    file: &[u8],
    judged: FileCalendar,
    place: usize,
    t: NoticesTaken,
    calls: &[u32],
    of: &[u8],
    rows: u32,
    ids: &[u8],
    keys: &[u16],
    days: &[u16],
    fulls: &[u8],
    numbers: &[u16],
    backs: &[u16],
    places: &mut [u16],
) -> LinesPrinted
    ensures { PlaceOut (open_in (calendar_answer judged) file.now) file.now t.date t.count calls.now of.now (record { ids = ids.now; keys = keys.now; days = days.now; fulls = fulls.now; numbers = numbers.now; backs = backs.now }) rows (length places.old) place sent result }
{
    let l = listed_of(file, judged, place, t, calls, of);
    if !l.holds {
        return LinesPrinted { sent, lines: 0 };
    }
    let id = l.id;
    let size = delivery_receipts::places_of(id, ids, rows, places);
    print_keys(
        rt,
        sent,
        l,
        &places[..size],
        keys,
        days,
        fulls,
        numbers,
        backs,
    )
}

// The lines of all products, in the file's order. Of a file of more than 65,537 bytes, one more than a file may have, nothing is written.
pub fn print_places(
    rt: HostRuntime,
    sent: Sent,
    file: &[u8],
    judged: FileCalendar,
    t: NoticesTaken,
    calls: &[u32],
    of: &[u8],
    rows: u32,
    ids: &[u8],
    keys: &[u16],
    days: &[u16],
    fulls: &[u8],
    numbers: &[u16],
    backs: &[u16],
    places: &mut [u16],
) -> LinesPrinted
    ensures places_out { length file.now ≤ 65537 → PlacesOut (open_in (calendar_answer judged) file.now) file.now t.date t.count calls.now of.now (record { ids = ids.now; keys = keys.now; days = days.now; fulls = fulls.now; numbers = numbers.now; backs = backs.now }) rows (length places.old) (place_count file.now) sent result }
    ensures lines_bound { result.lines ≤ 125829120 }
{
    let mut so_far = sent;
    let mut lines: u64 = 0;
    if 65537 < file.len() {
        return LinesPrinted {
            sent: so_far,
            lines,
        };
    }
    let count = 15 * (file.len() / 512);
    for p in 0..count {
        let part = print_place(
            rt, so_far, file, judged, p, t, calls, of, rows, ids, keys, days, fulls, numbers,
            backs, places,
        );
        so_far = part.sent;
        lines += part.lines;
    }
    LinesPrinted {
        sent: so_far,
        lines,
    }
}

// Writes the lines of ids that stand at the start of a buffer, which have to be those of the rows from one on up to the next.
fn write_strangers(
    rt: HostRuntime,
    sent: Sent,
    file: &[u8],
    ids: &[u8],
    from: u32,
    p: ReportProgress,
    out: &[u8],
) -> Sent
    requires { (p.length ≤ length out.now) × (parts_text (id_row_text file.now ids.now) p.next ≡ parts_text (id_row_text file.now ids.now) from ++ take p.length out.now) }
    ensures { Wrote sent p.length result }
{
    let n = p.length;
    streams::write_next(rt, sent, b"reconcile: standard output", &out[..n])
}

// The lines of the ids that are not in the file.
pub fn print_strangers(
    rt: HostRuntime,
    sent: Sent,
    file: &[u8],
    rows: u32,
    ids: &[u8],
) -> LinesPrinted
    ensures { StrangersOut file.now ids.now rows sent result }
{
    let mut out = io::buffer();
    let mut so_far = sent;
    let mut lines: u64 = 0;
    let mut from: u32 = 0;
    while from < rows {
        let p = delivery_reconciled::print_strangers(file, ids, rows, from, &mut out);
        so_far = write_strangers(rt, so_far, file, ids, from, p, &out);
        lines += p.lines as u64;
        from = p.next;
    }
    LinesPrinted {
        sent: so_far,
        lines,
    }
}
