// Covers with patterns of closures.
ghost use Rattle.std.specs.Prelude.{◌<◌};

use calendar::{Calendar, Cover};

// Clusters around third Fridays: Thursday and Friday of the third week in three months of four, Wednesday too in one of five.
fn near_third_friday(day: u16) -> bool {
    let month = days::month_of(day);
    let weekday = days::weekday(day);
    let first = days::first_day(month);
    if day < first {
        return false;
    }
    let n = day - first;
    if (n < 12) | (20 < n) {
        return false;
    }
    if weekday == 2 {
        return month % 5 == 0;
    }
    (3 <= weekday) & (month % 4 != 0)
}

// Christmas and the turn of the year, and a Friday and the Monday after it in the third week of March or April.
fn holiday(day: u16) -> bool {
    let month = days::month_of(day);
    let weekday = days::weekday(day);
    let first = days::first_day(month);
    if day < first {
        return false;
    }
    let n = day - first;
    let name = month % 12;
    if name == 0 {
        return n == 0;
    }
    if name == 11 {
        return (n == 23) | (n == 24) | (n == 25) | (n == 30);
    }
    if name == 2 + month / 12 % 2 {
        return ((weekday == 4) & (14 <= n) & (n <= 20)) | ((weekday == 0) & (17 <= n) & (n <= 23));
    }
    false
}

// Whether a pattern of closures has the day, a Monday to Friday.
fn in_pattern(cover: Cover, pattern: u16, day: u16) -> bool
    requires { day < 36525 }
{
    if pattern == 1 {
        return day % 11 == 3;
    }
    if pattern == 2 {
        let n = days::day_in_year(day);
        return (70 <= n) & (n <= 79);
    }
    if pattern == 3 {
        return (day < calendar::cover_start(cover) + 4) | (calendar::cover_end(cover) <= day + 4);
    }
    if pattern == 4 {
        return near_third_friday(day);
    }
    if pattern == 5 {
        return holiday(day);
    }
    false
}

fn closed_if(cal: Calendar, pattern: u16, day: u16) -> Calendar
    requires { day < 36525 }
{
    if 5 <= days::weekday(day) {
        return cal;
    }
    if in_pattern(cal.cover, pattern, day) {
        return calendar::close_day(cal, day);
    }
    cal
}

// The calendar of a cover with a pattern of closures.
pub(crate) fn closed_by(cover: Cover, pattern: u16) -> Calendar {
    let mut cal = calendar::open_calendar(cover);
    let end = calendar::cover_end(cover);
    for day in calendar::cover_start(cover)..end {
        cal = closed_if(cal, pattern, day);
    }
    cal
}

// Whether a second map has the day: two of three closed days, or every tenth day, closed or not.
fn in_second(cal: Calendar, second: u16, day: u16) -> bool {
    if second == 0 {
        return calendar::is_closed(cal, day) & (day % 3 != 1);
    }
    day % 10 == 4
}

// The calendar with the day in its second map, where the pattern has it.
fn marked_if(cal: Calendar, second: u16, day: u16) -> Calendar {
    if !in_second(cal, second, day) {
        return cal;
    }
    let slot = calendar::slot_of(cal.cover, day);
    let at = slot / 8;
    if 736 <= at {
        return cal;
    }
    let bit: u8 = 1 << (7 - slot % 8);
    let mut next = cal;
    next.exchange[at] = next.exchange[at] | bit;
    next
}

// The calendar with a pattern of the second map.
pub(crate) fn with_second(cal: Calendar, second: u16) -> Calendar {
    let end = calendar::cover_end(cal.cover);
    let mut next = cal;
    for day in calendar::cover_start(cal.cover)..end {
        next = marked_if(next, second, day);
    }
    next
}
