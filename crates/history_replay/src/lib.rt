// A history replayed: a table is opened, and a lent list of calls is run on it.
#![tactic(auto)]

ghost use Rattle.std.specs.Prelude.{◌≡◌, ◌+◌, ◌*◌, ◌%◌, ◌≤◌, length, set};
ghost use Rattle.table.specs.Table.{open_call};
ghost use Rattle.history.specs.History.{unpriced, uncounted, table_call};
ghost use Rattle.history_replay.specs.Replay.{short_in, call_of, call_at, lengths_fit, kinds_fit, replay_fits, CallsMade, Replayed};

use history::Called;
use table::{Outcome, Table};
use table_measures::Measured;

// What a run of calls ends with: whether the list has whole calls, each of a kind of 0 to 3, and the buffer room for their answers,
// open's refusal, and the table.
#[derive(Clone, Copy)]
pub struct Replay {
    pub fits: bool,
    pub refusal: u8,
    pub table: Table,
}

// A number of a lent list that a call takes in 16 bits: a date, a day, p or q. One that does not fit is read as 65,535, which is none of them.
fn short_in(number: u32) -> u16
    ensures { result ≡ short_in number }
{
    if 65535 < number {
        return 65535;
    }
    number as u16
}

// A roll, close or reopening gives no price.
fn without_price(o: Outcome) -> Called
    ensures { result ≡ unpriced o }
{
    let table = o.table;
    Called {
        refusal: o.refusal,
        table,
        entered: o.entered,
        left: o.left,
        price: 0,
    }
}

// No month enters or leaves in a measure.
fn without_counts(m: Measured) -> Called
    ensures { result ≡ uncounted m }
{
    let table = m.table;
    Called {
        refusal: m.refusal,
        table,
        entered: 0,
        left: 0,
        price: m.price,
    }
}

// One call by its kind: 0 rolls to a date, 1 closes a day, 2 reopens a day, 3 is a measure of p for q with a price.
// Any other number is a roll to 65,535, which is no day: every table refuses it.
pub fn call(t: Table, kind: u32, first: u32, second: u32, third: u32) -> Called
    ensures { result ≡ table_call t (call_of kind first second third) }
{
    let number = short_in(first);
    if kind == 0 {
        return without_price(t.roll(number));
    }
    if kind == 2 {
        return without_price(t.reopen(number));
    }
    if kind == 3 {
        return without_counts(table_measures::measure(t, number, short_in(second), third));
    }
    if kind == 1 {
        return without_price(t.close(number));
    }
    without_price(t.roll(65535))
}

// A call's number, its two counts and its price go to the four places of call i.
fn write_reply(buffer: &mut [u32], i: usize, refusal: u8, entered: u16, left: u16, price: u32)
    requires { 4 * i + 4 ≤ length buffer.old }
    ensures { buffer.new ≡ set (set (set (set buffer.old (4 * i) refusal) (4 * i + 1) entered) (4 * i + 2) left) (4 * i + 3) price }
{
    let at = 4 * i;
    buffer[at] = refusal as u32;
    buffer[at + 1] = entered as u32;
    buffer[at + 2] = left as u32;
    buffer[at + 3] = price;
}

// A table opened from a file.
fn open_table(file: &[u8], id: [u8; 4], date: u16) -> Outcome
    ensures { result ≡ open_call file.now id date }
{
    table::zero_table().open(file, id, date)
}

// Call i of a lent list.
fn call_at(t: Table, calls: &[u32], i: usize) -> Called
    requires { 4 * i + 4 ≤ length calls.now }
    ensures { result ≡ table_call t (call_at calls.now i) }
{
    let at = 4 * i;
    call(t, calls[at], calls[at + 1], calls[at + 2], calls[at + 3])
}

// Runs the calls of a lent list on a table, and writes each call's number, counts and price to a lent buffer.
fn run_calls(table: Table, calls: &[u32], buffer: &mut [u32]) -> Table
    requires { (length calls.now % 4 ≡ 0) × (length calls.now ≤ length buffer.old) }
    ensures { CallsMade table calls.now buffer.old buffer.new result }
{
    let mut t = table;
    for i in 0..calls.len() / 4 {
        let o = call_at(t, calls, i);
        write_reply(buffer, i, o.refusal, o.entered, o.left, o.price);
        t = o.table;
    }
    t
}

// Whether a list of so many numbers holds whole calls, and a buffer of so many has four places for each.
fn lengths_fit(calls: usize, buffer: usize) -> bool
    ensures { result ≡ lengths_fit calls buffer }
{
    (calls % 4 == 0) & (calls <= buffer)
}

// Whether every call of a list has a kind of 0 to 3.
fn kinds_fit(calls: &[u32]) -> bool
    ensures { result ≡ kinds_fit calls.now }
{
    for k in 0..calls.len() / 4 {
        if 3 < calls[4 * k] {
            return false;
        }
    }
    true
}

// Whether a list and a buffer of so many places fit each other, and every call has a kind.
fn replay_fits(calls: &[u32], buffer: usize) -> bool
    ensures { result ≡ replay_fits calls.now buffer }
{
    lengths_fit(calls.len(), buffer) & kinds_fit(calls)
}

// Opens a table and runs the calls of a lent list on it, four numbers each,
// and writes each call's number, counts and price to a lent buffer, four numbers each.
pub fn run(file: &[u8], id: [u8; 4], date: u16, calls: &[u32], buffer: &mut [u32]) -> Replay
    ensures { Replayed file.now id date calls.now buffer.old buffer.new result }
{
    let opened = open_table(file, id, date);
    let refusal = opened.refusal;
    let table = opened.table;
    if !replay_fits(calls, buffer.len()) {
        return Replay {
            fits: false,
            refusal,
            table,
        };
    }
    let after = run_calls(table, calls, buffer);
    Replay {
        fits: true,
        refusal,
        table: after,
    }
}
