// Standard input of `reconcile`: its good rows into lent lists, its bad lines told.
#![tactic(auto)]

ghost use Rattle.std.specs.Prelude.{◌≡◌, false, not, ◌&&◌, ℕ, ◌<◌, ltb, length};
ghost use Rattle.delivery_receipts.specs.Receiving.{room_in, SameLengths};
ghost use Rattle.delivery_row_parts.specs.RowParts.{LastTold};
ghost use Rattle.delivery_reading.specs.Reading.{RowsReadTo, RowsOfInput};

use delivery_row_parts::{LinesRead, RowsKept};
use streams::{Input, Told};

// How far standard input was read, and what is kept of it.
#[derive(Clone, Copy)]
pub struct InputRead {
    pub input: Input,
    pub lines: LinesRead,
}

// How far standard input was read, to its end or to a good row too many, and what it brought. Where a read failed nothing is said of it.
#[derive(Clone, Copy)]
pub struct RowsRead {
    pub input: Input,
    pub kept: RowsKept,
}

// Whether to read on: reads are left, and there was no good row too many.
fn goes_on(input: Input, k: LinesRead) -> bool
    ensures { result ≡ (ltb 0 input.left && not k.kept.state.over) }
{
    let kept = k.kept;
    let state = kept.state;
    (0 < streams::reads_left(input)) & !state.over
}

// The rest of the input, part by part, up to its end or to a good row too many.
fn read_rest(
    rt: HostRuntime,
    first: InputRead,
    part: &mut [u8],
    file: &[u8],
    ids: &mut [u8],
    keys: &mut [u16],
    days: &mut [u16],
    fulls: &mut [u8],
    numbers: &mut [u16],
    backs: &mut [u16],
) -> InputRead
    requires { 0 < length part.old }
    ensures same_lengths { SameLengths (record { ids = ids.old; keys = keys.old; days = days.old; fulls = fulls.old; numbers = numbers.old; backs = backs.old }) (record { ids = ids.new; keys = keys.new; days = days.new; fulls = fulls.new; numbers = numbers.new; backs = backs.new }) }
    ensures by_index { (told : ℕ) → room_in (record { ids = ids.old; keys = keys.old; days = days.old; fulls = fulls.old; numbers = numbers.old; backs = backs.old }) ≡ 65536 → RowsReadTo file.now told (record { ids = ids.old; keys = keys.old; days = days.old; fulls = fulls.old; numbers = numbers.old; backs = backs.old }) first.input.left first.input.bytes first.lines → RowsReadTo file.now told (record { ids = ids.new; keys = keys.new; days = days.new; fulls = fulls.new; numbers = numbers.new; backs = backs.new }) result.input.left result.input.bytes result.lines }
    ensures left_value { result.lines.kept.state.over ≡ false → result.input.left ≡ 0 }
{
    let mut input = first.input;
    let mut k = first.lines;
    while goes_on(input, k) {
        let read = streams::read_on_or_tell(rt, b"reconcile: standard input", input, 1, part);
        input = read.input;
        let n = read.length;
        k = delivery_row_parts::receive_part(
            rt,
            k,
            &part[..n],
            file,
            ids,
            keys,
            days,
            fulls,
            numbers,
            backs,
        );
    }
    InputRead { input, lines: k }
}

// What is kept after the last line; where a read failed, what was kept before it.
fn receive_all(
    rt: HostRuntime,
    r: InputRead,
    file: &[u8],
    ids: &mut [u8],
    keys: &mut [u16],
    days: &mut [u16],
    fulls: &mut [u8],
    numbers: &mut [u16],
    backs: &mut [u16],
) -> RowsRead
    ensures { (result.input ≡ r.input) × (r.input.failed ≡ false → LastTold file.now r.lines (record { ids = ids.old; keys = keys.old; days = days.old; fulls = fulls.old; numbers = numbers.old; backs = backs.old }) (record { ids = ids.new; keys = keys.new; days = days.new; fulls = fulls.new; numbers = numbers.new; backs = backs.new }) result.kept) }
{
    let input = r.input;
    let lines = r.lines;
    if streams::has_failed(input) {
        let kept = lines.kept;
        return RowsRead { input, kept };
    }
    let kept = delivery_row_parts::receive_last(
        rt, lines, file, ids, keys, days, fulls, numbers, backs,
    );
    RowsRead { input, kept }
}

// Standard input: its good rows in six lists, its bad lines told after what was told before.
pub fn read_rows(
    rt: HostRuntime,
    told: Told,
    file: &[u8],
    ids: &mut [u8],
    keys: &mut [u16],
    days: &mut [u16],
    fulls: &mut [u8],
    numbers: &mut [u16],
    backs: &mut [u16],
) -> RowsRead
    ensures rows_of_input { room_in (record { ids = ids.old; keys = keys.old; days = days.old; fulls = fulls.old; numbers = numbers.old; backs = backs.old }) ≡ 65536 → result.input.failed ≡ false → RowsOfInput file.now told.bytes (record { ids = ids.new; keys = keys.new; days = days.new; fulls = fulls.new; numbers = numbers.new; backs = backs.new }) result.input result.kept }
    ensures left_value { result.input.failed ≡ false → result.kept.state.over ≡ false → result.input.left ≡ 0 }
{
    let mut part = io::large_buffer();
    let nothing = streams::nothing_read();
    let first = streams::read_on_or_tell(rt, b"reconcile: standard input", nothing, 3, &mut part);
    let begun = first.input;
    if streams::has_failed(begun) {
        let lines = delivery_row_parts::nothing_kept(told);
        let kept = lines.kept;
        return RowsRead { input: begun, kept };
    }
    let n = first.length;
    let lines = delivery_row_parts::receive_first(
        rt,
        told,
        &part[..n],
        file,
        ids,
        keys,
        days,
        fulls,
        numbers,
        backs,
    );
    let start = InputRead {
        input: begun,
        lines,
    };
    let r = read_rest(
        rt, start, &mut part, file, ids, keys, days, fulls, numbers, backs,
    );
    receive_all(rt, r, file, ids, keys, days, fulls, numbers, backs)
}
