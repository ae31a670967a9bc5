// What the rows of standard input give, by a file that is accepted and notices with no bad line: what `reconcile` writes and tells of them, and its status.
#![tactic(auto)]

ghost use Rattle.std.specs.Prelude.{◌≡◌, true, ◌||◌, ◌≤◌, ◌<◌, length};
ghost use Rattle.session_lines.specs.CommandLines.{empty_line};
ghost use Rattle.file_text_print.specs.Contents.{LineWith};
ghost use Rattle.streams.specs.Transfers.{Grew};
ghost use Rattle.file_ids.specs.Ids.{record_count};
ghost use Rattle.file_calendar.specs.Calendars.{calendar_answer};
ghost use Rattle.delivery_parts.specs.Handing.{Runs};
ghost use Rattle.delivery_receipts.specs.Receiving.{room_in};
ghost use Rattle.delivery_reconciled.specs.Reconciled.{summary_text};
ghost use Rattle.delivery_reconciling.specs.ReconcileRuns.{ReconcileRan};
ghost use Rattle.reconcile_rows.specs.RowsRuns.{Stopped, Finished, NoRows};

use delivery_judging::LinesPrinted;
use delivery_notices::NoticesTaken;
use delivery_reading::RowsRead;
use delivery_row_parts::RowsKept;
use file_calendar::FileCalendar;
use session_lines::Line;
use streams::{Input, Sent, Told};

// How far standard input was read, what was written and told, and the status.
#[derive(Clone, Copy)]
pub struct Reconciled {
    pub input: Input,
    pub sent: Sent,
    pub told: Told,
    pub status: u8,
}

// Tells a line after what was told, which has to be that of the counts.
fn tell_last(rt: HostRuntime, kept: RowsKept, file: &[u8], p: LinesPrinted, line: Line) -> Told
    requires { (length (summary_text (record_count file.now) kept.state.rows p.lines kept.bad) < 64) × LineWith empty_line (summary_text (record_count file.now) kept.state.rows p.lines kept.bad) line }
    ensures { Grew kept.told.bytes (length (summary_text (record_count file.now) kept.state.rows p.lines kept.bad)) result.bytes }
{
    let bytes = line.bytes;
    let n = line.length;
    streams::tell_next(rt, kept.told, &bytes[..n])
}

// Tells the counts. Standard output is written before; where it does not take all, they are not told.
fn tell_counts(rt: HostRuntime, kept: RowsKept, file: &[u8], p: LinesPrinted) -> Told
    requires { (length file.now ≤ 65537) × (kept.state.rows ≤ 65536) × (p.lines < 1000000000) × (kept.bad < 1000000000) }
    ensures { p.sent.open ≡ true → Grew kept.told.bytes (length (summary_text (record_count file.now) kept.state.rows p.lines kept.bad)) result.bytes }
{
    let sent = p.sent;
    if !streams::is_open(sent) {
        return kept.told;
    }
    let products = file_ids::record_count(file) as u64;
    let state = kept.state;
    let rows = state.rows as u64;
    let bad = kept.bad as u64;
    let line = delivery_reconciled::summary_line(products, rows, p.lines, bad);
    tell_last(rt, kept, file, p, line)
}

// Whether nothing is printed of what was read: a read failed, or there was a good row too many.
fn stops(read: RowsRead) -> bool
    ensures { result ≡ (read.input.failed || read.kept.state.over) }
{
    let kept = read.kept;
    let state = kept.state;
    streams::has_failed(read.input) | state.over
}

// A run that prints nothing of what was read.
fn stopped(read: RowsRead) -> Reconciled
    ensures { Stopped read result }
{
    let input = read.input;
    let kept = read.kept;
    let told = kept.told;
    let sent = streams::nothing_sent();
    let status = program_status::status(streams::has_failed(input), true);
    Reconciled {
        input,
        sent,
        told,
        status,
    }
}

// A run that printed the differences, with what was told last.
fn finished(read: RowsRead, refused: bool, p: LinesPrinted, told: Told) -> Reconciled
    ensures { Finished read refused p told result }
{
    let input = read.input;
    let kept = read.kept;
    let sent = p.sent;
    let differs = refused | ((0 < kept.bad) | (0 < p.lines));
    let status = program_status::status(!streams::is_open(sent), differs);
    Reconciled {
        input,
        sent,
        told,
        status,
    }
}

// What rows give, by a file that is accepted and notices with no bad line. Where there were too many rows nothing is printed.
fn with_lists(
    rt: HostRuntime,
    file: &[u8],
    judged: FileCalendar,
    text: &[u8],
    t: NoticesTaken,
    calls: &[u32],
    of: &[u8],
    ids: &mut [u8],
    keys: &mut [u16],
    days: &mut [u16],
    fulls: &mut [u8],
    numbers: &mut [u16],
    backs: &mut [u16],
    places: &mut [u16],
) -> Reconciled
    requires { (length file.now ≤ 65537) × (room_in (record { ids = ids.old; keys = keys.old; days = days.old; fulls = fulls.old; numbers = numbers.old; backs = backs.old }) ≡ 65536) × (65536 ≤ length places.old) }
    ensures { Runs file.now text.now (calendar_answer judged) t calls.now of.now → ReconcileRan file.now text.now result.input result.sent result.told.bytes result.status }
{
    let opened = delivery_reconciling::tell_openings(rt, streams::nothing_told(), file, judged, t);
    let begun = opened.told;
    let read = delivery_reading::read_rows(rt, begun, file, ids, keys, days, fulls, numbers, backs);
    if stops(read) {
        return stopped(read);
    }
    let kept = read.kept;
    let state = kept.state;
    let p = delivery_reconciling::print_all(
        rt, file, judged, text, t, calls, of, state.rows, ids, keys, days, fulls, numbers, backs,
        places,
    );
    let told = tell_counts(rt, kept, file, p);
    finished(read, opened.refused, p, told)
}

// A run that reads no rows: what was told of it, and whether a file could not be read; else it was refused.
pub fn no_rows(told: Told, failed: bool) -> Reconciled
    ensures { NoRows told failed result }
{
    let input = streams::nothing_read();
    let sent = streams::nothing_sent();
    let status = program_status::status(failed, true);
    Reconciled {
        input,
        sent,
        told,
        status,
    }
}

// What rows give, with room for 65,536 of them. With a file of more than 65,537 bytes, one more than a file may have, none is read.
pub fn reconcile_rows(
    rt: HostRuntime,
    file: &[u8],
    judged: FileCalendar,
    text: &[u8],
    t: NoticesTaken,
    calls: &[u32],
    of: &[u8],
) -> Reconciled
    ensures { Runs file.now text.now (calendar_answer judged) t calls.now of.now → ReconcileRan file.now text.now result.input result.sent result.told.bytes result.status }
{
    if 65537 < file.len() {
        return no_rows(streams::nothing_told(), false);
    }
    let mut ids = [0u8; 262144];
    let mut keys = [0u16; 65536];
    let mut days = [0u16; 65536];
    let mut fulls = [0u8; 65536];
    let mut numbers = [0u16; 65536];
    let mut backs = [0u16; 65536];
    let mut places = [0u16; 65536];
    with_lists(
        rt,
        file,
        judged,
        text,
        t,
        calls,
        of,
        &mut ids,
        &mut keys,
        &mut days,
        &mut fulls,
        &mut numbers,
        &mut backs,
        &mut places,
    )
}
