// Calls that return days and leave the table as it is: last trading days and due days.
#![tactic(auto)]

ghost use Rattle.std.specs.Prelude.{◌≡◌};
ghost use Rattle.table_values.specs.Values.{day_reply, no_day, last_day_reply, no_last_day, last_day_call, due_call};

use table::{Table, is_sound};

// The number of a refusal, or 0 and a day.
#[repr(C)]
#[derive(Clone, Copy)]
pub struct DayReply {
    pub refusal: u8,
    pub day: u16,
}

// The number of a refusal, or 0 and a last trading day with the days stepped back.
#[repr(C)]
#[derive(Clone, Copy)]
pub struct LastDayReply {
    pub refusal: u8,
    pub day: u16,
    pub back: u16,
}

fn no_day(number: u8) -> DayReply
    ensures { day_reply result ≡ no_day number }
{
    DayReply {
        refusal: number,
        day: 0,
    }
}

fn no_last_day(number: u8) -> LastDayReply
    ensures { last_day_reply result ≡ no_last_day number }
{
    LastDayReply {
        refusal: number,
        day: 0,
        back: 0,
    }
}

// The last trading day of a listed maturity, by its key, with the days stepped back.
pub fn last_trading_day(t: Table, key: u16) -> LastDayReply
    ensures { last_day_reply result ≡ last_day_call t key }
{
    if !is_sound(t) {
        return no_last_day(10);
    }
    if !table::is_listed(t, key) {
        return no_last_day(18);
    }
    let p = t.product;
    let kind = p.kind;
    let group = p.group;
    let last = expiry::last_trading_day(t.calendar, kind, group, key);
    LastDayReply {
        refusal: 0,
        day: last.day,
        back: last.back,
    }
}

// The due day of a day of the cover: trading days and days of the second map count, from the first one after it.
pub fn due(t: Table, day: u16) -> DayReply
    ensures { day_reply result ≡ due_call t day }
{
    if !is_sound(t) {
        return no_day(10);
    }
    if !calendar::in_cover(t.calendar.cover, day) {
        return no_day(11);
    }
    let p = t.product;
    let kind = p.kind;
    let group = p.group;
    let n = product::settlement_days(kind, group) as u16;
    let due = calendar::nth_exchange_day(t.calendar, day, n);
    if !calendar::in_cover(t.calendar.cover, due) {
        return no_day(17);
    }
    DayReply {
        refusal: 0,
        day: due,
    }
}
