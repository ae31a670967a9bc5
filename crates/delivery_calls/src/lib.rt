// A call of a lent list on a table apart from the two maps of its calendar, which are lent.
#![tactic(auto)]

ghost use Rattle.std.specs.Prelude.{◌≡◌};
ghost use Rattle.table.specs.Table.{sound};
ghost use Rattle.history.specs.History.{table_call};
ghost use Rattle.history_replay.specs.Replay.{call_of};
ghost use Rattle.session_apart.specs.Apart.{table_with};
ghost use Rattle.delivery_calls.specs.CallsApart.{CallMade, CommandMade};

use file_calendar::FileCalendar;
use session_apart::Rest;
use session_lines::Command;

// What a call on a table apart gives back: the number of its refusal, and the rest of the table after it.
#[derive(Clone, Copy)]
pub struct MadeApart {
    pub refusal: u8,
    pub rest: Rest,
}

// A roll to a date or a close of a day, by the letter of its command, R or C.
fn command_apart(
    file: &[u8],
    judged: FileCalendar,
    rest: Rest,
    ten: bool,
    closed: &mut [u8; 736],
    exchange: &mut [u8; 736],
    letter: u8,
    day: u16,
) -> MadeApart
    ensures { ten ≡ sound (table_with rest closed.old exchange.old) → CommandMade (table_with rest closed.old exchange.old) letter day result closed.new exchange.new }
{
    let c = Command {
        letter,
        id: [0, 0, 0, 0],
        day,
    };
    let m = session_apart::move_apart(file, judged, rest, ten, closed, exchange, c);
    let after = m.rest;
    MadeApart {
        refusal: m.refusal,
        rest: after,
    }
}

// Any call, on the table that is put together, and its maps afterwards.
fn call_whole(
    rest: Rest,
    closed: &mut [u8; 736],
    exchange: &mut [u8; 736],
    kind: u32,
    first: u32,
    second: u32,
    third: u32,
) -> MadeApart
    ensures { CallMade (table_call (table_with rest closed.old exchange.old) (call_of kind first second third)) result closed.new exchange.new }
{
    let first_map = *closed;
    let second_map = *exchange;
    let t = session_apart::table_of(rest, first_map, second_map);
    let o = history_replay::call(t, kind, first, second, third);
    let refusal = o.refusal;
    let after = o.table;
    let cal = after.calendar;
    let closed_after = cal.closed;
    let exchange_after = cal.exchange;
    *closed = closed_after;
    *exchange = exchange_after;
    let next = session_apart::table_rest(after);
    MadeApart {
        refusal,
        rest: next,
    }
}

// One call by its kind, where the answer to question 10 of the table is at hand; a roll and a close that leave the listing as it is copy no map.
// The file and its verdict take no part in it.
pub fn call_apart(
    file: &[u8],
    judged: FileCalendar,
    rest: Rest,
    ten: bool,
    closed: &mut [u8; 736],
    exchange: &mut [u8; 736],
    kind: u32,
    first: u32,
    second: u32,
    third: u32,
) -> MadeApart
    ensures { ten ≡ sound (table_with rest closed.old exchange.old) → CallMade (table_call (table_with rest closed.old exchange.old) (call_of kind first second third)) result closed.new exchange.new }
{
    if 65535 < first {
        return call_whole(rest, closed, exchange, kind, first, second, third);
    }
    let day = first as u16;
    if kind == 0 {
        return command_apart(file, judged, rest, ten, closed, exchange, b'R', day);
    }
    if kind == 1 {
        return command_apart(file, judged, rest, ten, closed, exchange, b'C', day);
    }
    call_whole(rest, closed, exchange, kind, first, second, third)
}
