// The second map (02, note 4): question 5 and exchange days, on covers with patterns of closures and of the second map.
ghost use Rattle.std.specs.Prelude.{◌<◌, ◌≤◌};

use crate::calendars::{day_lines, header, ten_before};
use crate::patterns::{closed_by, with_second};
use calendar::{Calendar, Cover};
use compare_text::{end_line, put_answer, put_number, start_line};

// What is asked of one day.
fn second_map_line(rt: HostRuntime, cal: Calendar, day: u16) {
    start_line(rt, b'E');
    put_number(rt, day);
    put_answer(rt, calendar::is_in_second_map(cal, day));
    put_answer(rt, calendar::is_exchange_day(cal, day));
    put_number(rt, calendar::nth_exchange_day(cal, day, 1));
    put_number(rt, calendar::nth_exchange_day(cal, day, 4));
    end_line(rt);
}

fn one(rt: HostRuntime, cal: Calendar, index: u16, step: u16)
    requires { (1 ≤ step) × (step < 100) }
{
    let from = ten_before(calendar::cover_start(cal.cover));
    let to = calendar::cover_end(cal.cover) + 9;
    header(rt, cal, index);
    day_lines(from, to, step, |day: u16| second_map_line(rt, cal, day));
}

// A pattern of closures with both patterns of the second map.
fn both(rt: HostRuntime, cover: Cover, pattern: u16, index: u16, step: u16)
    requires { (index < 100) × (1 ≤ step) × (step < 100) }
{
    let cal = closed_by(cover, pattern);
    one(rt, with_second(cal, 0), index, step);
    one(rt, with_second(cal, 1), index + 1, step);
}

// The four patterns of closures.
fn cover(rt: HostRuntime, first_year: u16, years: u16, index: u16, step: u16)
    requires { (index < 50) × (1 ≤ step) × (step < 100) }
{
    let c = Cover { first_year, years };
    both(rt, c, 0, index, step);
    both(rt, c, 1, index + 2, step);
    both(rt, c, 2, index + 4, step);
    both(rt, c, 3, index + 6, step);
}

pub(crate) fn print(rt: HostRuntime) {
    cover(rt, 2008, 3, 20, 5);
    cover(rt, 2084, 16, 28, 37);
}
