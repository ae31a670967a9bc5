// The calendar functions on covers of several lengths with patterns of closures.
ghost use Rattle.std.specs.Prelude.{◌<◌, ◌≤◌, ℕ};

use crate::patterns::closed_by;
use calendar::{Calendar, Cover};
use compare_text::{end_line, put_answer, put_number, start_line};

// What is asked of one day.
fn calendar_day_line(rt: HostRuntime, cal: Calendar, day: u16) {
    start_line(rt, b'T');
    put_number(rt, day);
    put_answer(rt, calendar::in_cover(cal.cover, day));
    put_answer(rt, calendar::is_closed(cal, day));
    put_answer(rt, calendar::is_trading_day(cal, day));
    let last = expiry::last_day(cal, day);
    put_number(rt, last.day);
    put_number(rt, last.back);
    put_number(rt, calendar::nth_exchange_day(cal, day, 1));
    put_number(rt, calendar::nth_exchange_day(cal, day, 3));
    end_line(rt);
}

// A line for each day from one to another, by steps of so many days.
pub(crate) fn day_lines<F: Fn(u16)>(from: u16, to: u16, step: u16, line: F)
    requires { (1 ≤ step) × (step < 100) × (to < 40000) × ((day : ℕ) → F.pre line day) }
{
    let mut day = from;
    while day <= to {
        line(day);
        day += step;
    }
}

// Question 15 of one day.
fn closing_line(rt: HostRuntime, cal: Calendar, day: u16) {
    start_line(rt, b'X');
    put_number(rt, day);
    put_answer(rt, calendar_checks::trades_with_closed(cal, day));
    end_line(rt);
}

pub(crate) fn header(rt: HostRuntime, cal: Calendar, index: u16) {
    let cover = cal.cover;
    start_line(rt, b'K');
    put_number(rt, index);
    put_number(rt, cover.first_year);
    put_number(rt, cover.years);
    put_answer(rt, calendar::is_valid_cover(cover));
    put_answer(rt, calendar_checks::is_clean(cal));
    put_answer(rt, calendar_checks::every_week_trades(cal));
    end_line(rt);
}

pub(crate) fn ten_before(day: u16) -> u16 {
    day.saturating_sub(10)
}

fn one(rt: HostRuntime, cover: Cover, index: u16, pattern: u16, step: u16)
    requires { (1 ≤ step) × (step < 10) }
{
    let cal = closed_by(cover, pattern);
    let from = ten_before(calendar::cover_start(cover));
    let to = calendar::cover_end(cover) + 9;
    header(rt, cal, index);
    day_lines(
        from,
        to,
        5 * step,
        |day: u16| calendar_day_line(rt, cal, day),
    );
    day_lines(from, to, 7 * step, |day: u16| closing_line(rt, cal, day));
}

// The four patterns of a cover.
fn cover(rt: HostRuntime, first_year: u16, years: u16, index: u16, step: u16)
    requires { (index < 100) × (1 ≤ step) × (step < 10) }
{
    let c = Cover { first_year, years };
    for pattern in 0..4u16 {
        one(rt, c, index + pattern, pattern, step);
    }
}

pub(crate) fn print(rt: HostRuntime) {
    cover(rt, 2000, 1, 0, 1);
    cover(rt, 2008, 3, 4, 1);
    cover(rt, 2015, 1, 8, 1);
    cover(rt, 2084, 16, 12, 9);
    cover(rt, 2099, 1, 16, 1);
}
