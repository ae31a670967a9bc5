// The lines of standard input of `reconcile`, part by part: good rows into lent lists, bad lines told.
#![tactic(auto)]

ghost use Rattle.std.specs.Prelude.{◌≡◌, [], length};
ghost use Rattle.session_lines.specs.CommandLines.{empty_line};
ghost use Rattle.file_text_print.specs.Contents.{LineWith};
ghost use Rattle.streams.specs.Transfers.{Grew};
ghost use Rattle.delivery_items.specs.Items.{empty_long};
ghost use Rattle.delivery_receipts.specs.Receiving.{told_of};
ghost use Rattle.delivery_inputs.specs.ReconcileInputs.{bad_rows_text};
ghost use Rattle.delivery_row_parts.specs.RowParts.{RowTold, Nothing, EndTold, PartTold, FirstTold, LastTold};

use delivery_items::{LineEnd, LongLine};
use delivery_receipts::Receiving;
use session_lines::Line;
use streams::Told;

// What is kept from one line to the next: what was received, how many lines were bad, at most 999,999,999, and what was told.
#[derive(Clone, Copy)]
pub struct RowsKept {
    pub state: Receiving,
    pub bad: u32,
    pub told: Told,
}

// What is kept from one part of the input to the next: what its lines brought, and the line begun.
#[derive(Clone, Copy)]
pub struct LinesRead {
    pub kept: RowsKept,
    pub line: LongLine,
}

// Tells a line, which has to be what is told of the line after which this is received.
fn tell_row(rt: HostRuntime, told: Told, after: Receiving, line: Line) -> Told
    requires { LineWith empty_line (bad_rows_text (told_of after.bad)) line }
    ensures { Grew told.bytes (length (bad_rows_text (told_of after.bad))) result.bytes }
{
    let bytes = line.bytes;
    let n = line.length;
    streams::tell_next(rt, told, &bytes[..n])
}

// One line more; a bad one is told.
fn receive_told(
    rt: HostRuntime,
    k: RowsKept,
    file: &[u8],
    line: LongLine,
    ids: &mut [u8],
    keys: &mut [u16],
    days: &mut [u16],
    fulls: &mut [u8],
    numbers: &mut [u16],
    backs: &mut [u16],
) -> RowsKept
    ensures { RowTold file.now k line (record { ids = ids.old; keys = keys.old; days = days.old; fulls = fulls.old; numbers = numbers.old; backs = backs.old }) (record { ids = ids.new; keys = keys.new; days = days.new; fulls = fulls.new; numbers = numbers.new; backs = backs.new }) result }
{
    let r = delivery_inputs::take_row(
        file, k.state, k.bad, line, ids, keys, days, fulls, numbers, backs,
    );
    let state = r.state;
    let told = tell_row(rt, k.told, state, r.told);
    RowsKept {
        state,
        bad: r.bad,
        told,
    }
}

// Before the first line.
pub fn nothing_kept(told: Told) -> LinesRead
    ensures { (result.kept.told ≡ told) × (result.line ≡ empty_long) × Nothing result.kept }
{
    let state = delivery_receipts::nothing_received();
    let line = delivery_items::empty_long_line();
    let kept = RowsKept {
        state,
        bad: 0,
        told,
    };
    LinesRead { kept, line }
}

// A line that a line feed ended is taken, and the next one begun; any other is begun.
fn receive_end(
    rt: HostRuntime,
    k: RowsKept,
    e: LineEnd,
    file: &[u8],
    ids: &mut [u8],
    keys: &mut [u16],
    days: &mut [u16],
    fulls: &mut [u8],
    numbers: &mut [u16],
    backs: &mut [u16],
) -> LinesRead
    ensures { EndTold file.now k e (record { ids = ids.old; keys = keys.old; days = days.old; fulls = fulls.old; numbers = numbers.old; backs = backs.old }) (record { ids = ids.new; keys = keys.new; days = days.new; fulls = fulls.new; numbers = numbers.new; backs = backs.new }) result }
{
    let line = e.line;
    if !e.ended {
        return LinesRead { kept: k, line };
    }
    let kept = receive_told(rt, k, file, line, ids, keys, days, fulls, numbers, backs);
    let next = delivery_items::empty_long_line();
    LinesRead { kept, line: next }
}

// A part of the input: all lines that end in it are taken, and the line begun is kept with its bytes.
pub fn receive_part(
    rt: HostRuntime,
    k: LinesRead,
    part: &[u8],
    file: &[u8],
    ids: &mut [u8],
    keys: &mut [u16],
    days: &mut [u16],
    fulls: &mut [u8],
    numbers: &mut [u16],
    backs: &mut [u16],
) -> LinesRead
    ensures { PartTold file.now k (record { ids = ids.old; keys = keys.old; days = days.old; fulls = fulls.old; numbers = numbers.old; backs = backs.old }) part.now result (record { ids = ids.new; keys = keys.new; days = days.new; fulls = fulls.new; numbers = numbers.new; backs = backs.new }) [] }
{
    let mut s = k;
    let mut at: usize = 0;
    while at < part.len() {
        let e = delivery_items::line_from(s.line, part, at);
        s = receive_end(rt, s.kept, e, file, ids, keys, days, fulls, numbers, backs);
        at = e.next;
    }
    s
}

// The first part, which is taken without its mark.
pub fn receive_first(
    rt: HostRuntime,
    told: Told,
    part: &[u8],
    file: &[u8],
    ids: &mut [u8],
    keys: &mut [u16],
    days: &mut [u16],
    fulls: &mut [u8],
    numbers: &mut [u16],
    backs: &mut [u16],
) -> LinesRead
    ensures { FirstTold file.now told.bytes (record { ids = ids.old; keys = keys.old; days = days.old; fulls = fulls.old; numbers = numbers.old; backs = backs.old }) part.now result (record { ids = ids.new; keys = keys.new; days = days.new; fulls = fulls.new; numbers = numbers.new; backs = backs.new }) }
{
    let k = nothing_kept(told);
    let mark = delivery_lines::mark_length(part);
    receive_part(
        rt,
        k,
        &part[mark..],
        file,
        ids,
        keys,
        days,
        fulls,
        numbers,
        backs,
    )
}

// The last line, which no line feed ends, where it has bytes.
pub fn receive_last(
    rt: HostRuntime,
    k: LinesRead,
    file: &[u8],
    ids: &mut [u8],
    keys: &mut [u16],
    days: &mut [u16],
    fulls: &mut [u8],
    numbers: &mut [u16],
    backs: &mut [u16],
) -> RowsKept
    ensures { LastTold file.now k (record { ids = ids.old; keys = keys.old; days = days.old; fulls = fulls.old; numbers = numbers.old; backs = backs.old }) (record { ids = ids.new; keys = keys.new; days = days.new; fulls = fulls.new; numbers = numbers.new; backs = backs.new }) result }
{
    let line = k.line;
    let kept = k.kept;
    if line.length == 0 {
        return kept;
    }
    receive_told(rt, kept, file, line, ids, keys, days, fulls, numbers, backs)
}
