// What `reconcile` tells before it reads rows, the openings that were refused, and what it prints after them, the lines that differ under their heading.
#![tactic(auto)]

ghost use Rattle.std.specs.Prelude.{◌≡◌, true, ◌+◌, ◌≤◌, length};
ghost use Rattle.questions.specs.Search.{some};
ghost use Rattle.session_lines.specs.CommandLines.{empty_line};
ghost use Rattle.file_text_print.specs.Contents.{LineWith};
ghost use Rattle.streams.specs.Transfers.{Grew};
ghost use Rattle.file_ids.specs.Ids.{place_count};
ghost use Rattle.file_calendar.specs.Calendars.{calendar_answer};
ghost use Rattle.table.specs.Table.{open_in};
ghost use Rattle.delivery_parts.specs.PlaceParts.{parts_text};
ghost use Rattle.delivery_parts.specs.Handing.{Runs};
ghost use Rattle.delivery_reports.specs.Reports.{differences_heading};
ghost use Rattle.delivery_reconciled.specs.Reconciled.{opening_text, opening_refused};
ghost use Rattle.delivery_reconciling.specs.ReconcileRuns.{ProductsOut, DifferencesOut};

use delivery_judging::LinesPrinted;
use delivery_notices::NoticesTaken;
use file_calendar::FileCalendar;
use session_lines::Line;
use streams::{Sent, Told};

// What was told, and whether an opening was refused.
#[derive(Clone, Copy)]
pub struct OpeningsTold {
    pub told: Told,
    pub refused: bool,
}

// Tells a line, which has to be that of the refused opening at a place, or to have no bytes.
fn tell_opening(
    rt: HostRuntime,
    told: Told,
    file: &[u8],
    judged: FileCalendar,
    t: NoticesTaken,
    place: usize,
    line: Line,
) -> Told
    requires { LineWith empty_line (opening_text (open_in (calendar_answer judged) file.now) file.now t.opened t.date place) line }
    ensures { Grew told.bytes (length (opening_text (open_in (calendar_answer judged) file.now) file.now t.opened t.date place)) result.bytes }
{
    let bytes = line.bytes;
    let n = line.length;
    streams::tell_next(rt, told, &bytes[..n])
}

// Tells the openings that were refused, in the file's order.
pub fn tell_openings(
    rt: HostRuntime,
    told: Told,
    file: &[u8],
    judged: FileCalendar,
    t: NoticesTaken,
) -> OpeningsTold
    ensures grew { Grew told.bytes (length (parts_text (opening_text (open_in (calendar_answer judged) file.now) file.now t.opened t.date) (place_count file.now))) result.told.bytes }
    ensures refused_value { result.refused ≡ some (place_count file.now) (opening_refused (open_in (calendar_answer judged) file.now) file.now t.date) }
{
    let places = 15 * (file.len() / 512);
    let mut so_far = told;
    let mut refused = false;
    for p in 0..places {
        let line = delivery_reconciled::opening_line(file, judged, p, t.date, t.opened);
        so_far = tell_opening(rt, so_far, file, judged, t, p, line);
        refused = refused | (0 < line.length);
    }
    OpeningsTold {
        told: so_far,
        refused,
    }
}

// Writes a line before anything else, which has to be the heading.
fn write_heading(rt: HostRuntime, line: Line) -> Sent
    requires { LineWith empty_line differences_heading line }
    ensures { result.open ≡ true → Grew 0 (length differences_heading) result.bytes }
{
    let bytes = line.bytes;
    let n = line.length;
    let nothing = streams::nothing_sent();
    streams::write_next(rt, nothing, b"reconcile: standard output", &bytes[..n])
}

// The lines of all products, which come after the heading.
fn print_products(
    rt: HostRuntime,
    headed: Sent,
    file: &[u8],
    judged: FileCalendar,
    text: &[u8],
    t: NoticesTaken,
    calls: &[u32],
    of: &[u8],
    rows: u32,
    ids: &[u8],
    keys: &[u16],
    days: &[u16],
    fulls: &[u8],
    numbers: &[u16],
    backs: &[u16],
    places: &mut [u16],
) -> LinesPrinted
    ensures lines_bound { result.lines ≤ 125829120 }
    ensures products_out { Runs file.now text.now (calendar_answer judged) t calls.now of.now → rows ≤ 65536 → 65536 ≤ length places.old → (headed.open ≡ true → Grew 0 (length differences_heading) headed.bytes) → ProductsOut file.now text.now (record { ids = ids.now; keys = keys.now; days = days.now; fulls = fulls.now; numbers = numbers.now; backs = backs.now }) rows result }
{
    delivery_judging::print_places(
        rt, headed, file, judged, t, calls, of, rows, ids, keys, days, fulls, numbers, backs,
        places,
    )
}

// The lines of the ids that are not in the file, which come after those of the products.
fn print_others(
    rt: HostRuntime,
    own: LinesPrinted,
    file: &[u8],
    text: &[u8],
    rows: u32,
    ids: &[u8],
    keys: &[u16],
    days: &[u16],
    fulls: &[u8],
    numbers: &[u16],
    backs: &[u16],
) -> LinesPrinted
    requires { own.lines ≤ 125829120 }
    ensures lines_bound { result.lines ≤ 125829120 + rows }
    ensures differences_out { ProductsOut file.now text.now (record { ids = ids.now; keys = keys.now; days = days.now; fulls = fulls.now; numbers = numbers.now; backs = backs.now }) rows own → DifferencesOut file.now text.now (record { ids = ids.now; keys = keys.now; days = days.now; fulls = fulls.now; numbers = numbers.now; backs = backs.now }) rows result }
{
    let others = delivery_judging::print_strangers(rt, own.sent, file, rows, ids);
    let sent = others.sent;
    let lines = own.lines + others.lines;
    LinesPrinted { sent, lines }
}

// The lines of differences under their heading, by a file that is accepted and notices with no bad line; there is room for the places of 65,536 rows.
pub fn print_all(
    rt: HostRuntime,
    file: &[u8],
    judged: FileCalendar,
    text: &[u8],
    t: NoticesTaken,
    calls: &[u32],
    of: &[u8],
    rows: u32,
    ids: &[u8],
    keys: &[u16],
    days: &[u16],
    fulls: &[u8],
    numbers: &[u16],
    backs: &[u16],
    places: &mut [u16],
) -> LinesPrinted
    ensures lines_bound { result.lines ≤ 125829120 + rows }
    ensures differences_out { Runs file.now text.now (calendar_answer judged) t calls.now of.now → rows ≤ 65536 → 65536 ≤ length places.old → DifferencesOut file.now text.now (record { ids = ids.now; keys = keys.now; days = days.now; fulls = fulls.now; numbers = numbers.now; backs = backs.now }) rows result }
{
    let headed = write_heading(rt, delivery_reports::heading_line());
    let own = print_products(
        rt, headed, file, judged, text, t, calls, of, rows, ids, keys, days, fulls, numbers, backs,
        places,
    );
    print_others(
        rt, own, file, text, rows, ids, keys, days, fulls, numbers, backs,
    )
}
