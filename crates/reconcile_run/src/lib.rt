// All of the program `reconcile` but its `main`: reads master.bin, notices.txt and rows from standard input,
// and prints where they differ from the tables of all products after the notices.
#![tactic(auto)]

mod files;

ghost use Rattle.std.specs.Prelude.{◌≡◌, [], ◌≤◌, ◌<◌, length};
ghost use Rattle.session_lines.specs.CommandLines.{empty_line};
ghost use Rattle.file_text_print.specs.Contents.{LineWith};
ghost use Rattle.streams.specs.Transfers.{Grew};
ghost use Rattle.file_calendar.specs.Calendars.{calendar_answer};
ghost use Rattle.file_load.specs.Load.{judge_call};
ghost use Rattle.delivery_reconciled.specs.Reconciled.{reconcile_told};
ghost use Rattle.reconcile_run.specs.WholeRun.{RowsRun, OnFile, OnFiles};

use file_calendar::FileCalendar;
pub use files::FileRead;
use reconcile_rows::{Reconciled, no_rows};
use session_lines::Line;
use streams::Told;

// How notices.txt was read, and what the rows gave.
#[derive(Clone, Copy)]
pub struct FileRun {
    pub notices: FileRead,
    pub rows: Reconciled,
}

// How the two files were read, and what the rows gave.
#[derive(Clone, Copy)]
pub struct ReconcileEnded {
    pub master: FileRead,
    pub notices: FileRead,
    pub rows: Reconciled,
}

// Tells a line before anything else, which has to be all that is told of a file and notices of which no rows are judged.
fn tell_refused(rt: HostRuntime, file: &[u8], text: &[u8], line: Line) -> Told
    requires { (length (reconcile_told file.now text.now []) < 64) × LineWith empty_line (reconcile_told file.now text.now []) line }
    ensures { Grew 0 (length (reconcile_told file.now text.now [])) result.bytes }
{
    let bytes = line.bytes;
    let n = line.length;
    let nothing = streams::nothing_told();
    streams::tell_next(rt, nothing, &bytes[..n])
}

// What a text of notices and rows give, by a file that is accepted. The rows are read where none of the notices is bad.
fn with_notices(rt: HostRuntime, file: &[u8], judged: FileCalendar, text: &[u8]) -> Reconciled
    requires { (calendar_answer judged ≡ judge_call file.now) × (judged.refusal ≡ 0) × (length file.now ≤ 65537) }
    ensures { RowsRun file.now text.now result }
{
    let mut calls = [0u32; 32770];
    let mut of = [0u8; 26216];
    let t = delivery_notices::read_notices(text, &mut calls, &mut of);
    let bad = t.bad;
    if bad != 0 {
        let told = tell_refused(rt, file, text, delivery_refusals::bad_notice_line(bad));
        return no_rows(told, false);
    }
    reconcile_rows::reconcile_rows(rt, file, judged, text, t, &calls, &of)
}

// What a file that was read gives. The notices are read where it is accepted.
fn on_file(rt: HostRuntime, file: &[u8], text: &mut [u8]) -> FileRun
    requires { length file.now ≤ 65537 }
    ensures { OnFile file.now text.new result }
{
    let judged = file_load::judge(file);
    let refusal = judged.refusal;
    if refusal != 0 {
        let told = tell_refused(rt, file, b"", delivery_refusals::master_line(refusal));
        let notices = files::not_read();
        let rows = no_rows(told, false);
        return FileRun { notices, rows };
    }
    let notices = files::read_notices(rt, text);
    if files::could_not(notices) {
        let rows = no_rows(streams::nothing_told(), true);
        return FileRun { notices, rows };
    }
    let n = files::size(notices);
    let rows = with_notices(rt, file, judged, &text[..n]);
    FileRun { notices, rows }
}

// A run of the program. A file that cannot be read is told with the system's reason, and ends it.
pub fn run(rt: HostRuntime) -> ReconcileEnded
    ensures { OnFiles result }
{
    let mut file = [0u8; 65537];
    let mut text = [0u8; 65537];
    let master = files::read_master(rt, &mut file);
    if files::could_not(master) {
        let unread = files::not_read();
        let rows = no_rows(streams::nothing_told(), true);
        return ReconcileEnded {
            master,
            notices: unread,
            rows,
        };
    }
    let size = files::size(master);
    let r = on_file(rt, &file[..size], &mut text);
    let notices = r.notices;
    let rows = r.rows;
    ReconcileEnded {
        master,
        notices,
        rows,
    }
}
