// The questions of standard input, read part by part, and the answers of `query`, written as they come.
#![tactic(auto)]

mod input;
mod output;

ghost use Rattle.std.specs.Prelude.{◌≡◌, true, false, [], ◌≤◌, length};
ghost use Rattle.session_parts.specs.TermsParts.{counted};
ghost use Rattle.delivery_items.specs.Items.{empty_long};
ghost use Rattle.delivery_lines.specs.NoticeLines.{unmarked};
ghost use Rattle.delivery_queries.specs.Queries.{standing_in};
ghost use Rattle.delivery_sessions.specs.QueryParts.{query_rest, refused_rest};
ghost use Rattle.delivery_sessions.specs.QueryRuns.{QueryHanded, Came, QueryRan};

use delivery_notices::NoticesTaken;
use delivery_sessions::QueryProgress;
use file_calendar::FileCalendar;
use streams::{Input, Sent};

// What is kept from one part of the input to the next: the number of the line that is begun, its bytes so far, whether an answer was refused,
// and what has been written.
#[derive(Clone, Copy)]
pub struct QueryCarried {
    pub progress: QueryProgress,
    pub sent: Sent,
}

// How far the input was read, what has been written, and whether an answer is `NO n` or `BAD K`.
#[derive(Clone, Copy)]
pub struct QueryEnded {
    pub input: Input,
    pub sent: Sent,
    pub refused: bool,
}

// Writes the answers to all lines that end in a part of the input. A write that fails ends the run.
fn write_part(
    rt: HostRuntime,
    k: QueryCarried,
    file: &[u8],
    judged: FileCalendar,
    t: NoticesTaken,
    calls: &[u32],
    ids: &[u8],
    refusals: &mut [u8],
    part: &[u8],
    out: &mut [u8],
) -> QueryCarried
    requires { 512 ≤ length out.old }
    ensures { result.sent.open ≡ true → QueryHanded (standing_in judged file.now t calls.now ids.now (length refusals.old)) k.progress.number k.progress.refused k.progress.line part.now k.sent.bytes result.progress.number result.progress.refused result.progress.line [] result.sent.bytes }
{
    let room = refusals.len();
    let mut sent = k.sent;
    let mut s = k.progress;
    s.at = 0;
    while s.at < part.len() {
        let p = delivery_sessions::answer_part(file, judged, t, calls, ids, refusals, s, part, out);
        sent = output::write_out(rt, sent, file, judged, t, calls, ids, room, part, s, p, out);
        s = p;
        if !streams::is_open(sent) {
            return QueryCarried { progress: s, sent };
        }
    }
    QueryCarried { progress: s, sent }
}

// Writes the answers to all lines that end in the first part of the input, which is taken without its mark.
fn write_first(
    rt: HostRuntime,
    file: &[u8],
    judged: FileCalendar,
    t: NoticesTaken,
    calls: &[u32],
    ids: &[u8],
    refusals: &mut [u8],
    part: &[u8],
    out: &mut [u8],
) -> QueryCarried
    requires { 512 ≤ length out.old }
    ensures { result.sent.open ≡ true → QueryHanded (standing_in judged file.now t calls.now ids.now (length refusals.old)) 1 false empty_long (unmarked part.now) 0 result.progress.number result.progress.refused result.progress.line [] result.sent.bytes }
{
    let line = delivery_items::empty_long_line();
    let sent = streams::nothing_sent();
    let progress = QueryProgress {
        number: 1,
        line,
        at: 0,
        length: 0,
        refused: false,
    };
    let k = QueryCarried { progress, sent };
    let mark = delivery_lines::mark_length(part);
    write_part(
        rt,
        k,
        file,
        judged,
        t,
        calls,
        ids,
        refusals,
        &part[mark..],
        out,
    )
}

// Writes the answer to a last line that no line feed ends, after an input that was read to its end.
fn write_last(
    rt: HostRuntime,
    file: &[u8],
    judged: FileCalendar,
    t: NoticesTaken,
    calls: &[u32],
    ids: &[u8],
    refusals: &mut [u8],
    k: QueryCarried,
    input: Input,
    out: &mut [u8],
) -> QueryEnded
    requires { (512 ≤ length out.old) × (input.left ≡ 0) × (input.failed ≡ false) }
    ensures { (result.input ≡ input) × (result.sent.open ≡ true → result.sent.bytes ≡ counted k.sent.bytes (length (query_rest (standing_in judged file.now t calls.now ids.now (length refusals.old)) k.progress.number k.progress.line []))) × (refused_rest (standing_in judged file.now t calls.now ids.now (length refusals.old)) k.progress.refused k.progress.line [] ≡ result.refused) }
{
    let room = refusals.len();
    let s = k.progress;
    let a = delivery_sessions::answer_last(file, judged, t, calls, ids, refusals, s, out);
    let mut p = s;
    p.length = a.next;
    let sent = output::write_out(
        rt, k.sent, file, judged, t, calls, ids, room, file, s, p, out,
    );
    QueryEnded {
        input,
        sent,
        refused: a.refused,
    }
}

// Reads the input part by part, up to its end. What is answered is written before the next read.
fn write_rest(
    rt: HostRuntime,
    file: &[u8],
    judged: FileCalendar,
    t: NoticesTaken,
    calls: &[u32],
    ids: &[u8],
    refusals: &mut [u8],
    first: QueryCarried,
    begun: Input,
    out: &mut [u8],
) -> QueryEnded
    requires { (512 ≤ length out.old) × Came (standing_in judged file.now t calls.now ids.now (length refusals.old)) first.progress.number first.progress.refused first.progress.line first.sent.bytes begun.bytes }
    ensures { result.sent.open ≡ true → result.input.failed ≡ false → (result.input.left ≡ 0) × QueryRan (standing_in judged file.now t calls.now ids.now (length refusals.old)) result.sent.bytes result.refused result.input.bytes }
{
    let mut part = io::large_buffer();
    let mut k = first;
    let mut input = begun;
    while 0 < streams::reads_left(input) {
        let read = input::read_part(rt, input, &mut part);
        input = read.input;
        let n = read.length;
        k = write_part(
            rt,
            k,
            file,
            judged,
            t,
            calls,
            ids,
            refusals,
            &part[..n],
            out,
        );
        if !streams::is_open(k.sent) {
            return ended(k, input);
        }
    }
    if streams::has_failed(input) {
        return ended(k, input);
    }
    write_last(rt, file, judged, t, calls, ids, refusals, k, input, out)
}

// A run that ends here.
fn ended(k: QueryCarried, input: Input) -> QueryEnded
    ensures { (result.input ≡ input) × (result.sent ≡ k.sent) }
{
    let s = k.progress;
    let sent = k.sent;
    QueryEnded {
        input,
        sent,
        refused: s.refused,
    }
}

// A run that answers nothing.
fn nothing_answered(input: Input) -> QueryEnded
    ensures { (result.input ≡ input) × (result.sent.bytes ≡ 0) }
{
    let sent = streams::nothing_sent();
    QueryEnded {
        input,
        sent,
        refused: false,
    }
}

// Answers the questions of standard input by a file with its verdict and the notices of two lists.
// A lent buffer takes a byte for each notice; where it has no room for them no notice is taken.
pub fn answer_input(
    rt: HostRuntime,
    file: &[u8],
    judged: FileCalendar,
    t: NoticesTaken,
    calls: &[u32],
    ids: &[u8],
    refusals: &mut [u8],
) -> QueryEnded
    ensures { result.sent.open ≡ true → result.input.failed ≡ false → (result.input.left ≡ 0) × QueryRan (standing_in judged file.now t calls.now ids.now (length refusals.old)) result.sent.bytes result.refused result.input.bytes }
{
    let mut part = io::large_buffer();
    let mut out = io::large_buffer();
    let read = input::read_first(rt, streams::nothing_read(), &mut part);
    let begun = read.input;
    if streams::has_failed(begun) {
        return nothing_answered(begun);
    }
    let n = read.length;
    let k = write_first(
        rt,
        file,
        judged,
        t,
        calls,
        ids,
        refusals,
        &part[..n],
        &mut out,
    );
    if !streams::is_open(k.sent) {
        return ended(k, begun);
    }
    if n < 3 {
        return write_last(
            rt, file, judged, t, calls, ids, refusals, k, begun, &mut out,
        );
    }
    write_rest(
        rt, file, judged, t, calls, ids, refusals, k, begun, &mut out,
    )
}
