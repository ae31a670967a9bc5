// The values after seeds, and the closed days of made-up calendars.
use calendar::{Calendar, Cover};
use compare_text::{end_line, put_answer, put_number, start_line};

// A value and the next one.
fn value_line(rt: HostRuntime, value: u32) {
    start_line(rt, b'V');
    put_number(rt, value);
    put_number(rt, calendar_synthetic::next_value(value));
    end_line(rt);
}

fn put_if_closed(rt: HostRuntime, cal: Calendar, day: u16) {
    if calendar::is_closed(cal, day) {
        put_number(rt, day);
    }
}

// The closed days of the cover.
fn put_closed(rt: HostRuntime, cal: Calendar) {
    let from = calendar::cover_start(cal.cover);
    let end = calendar::cover_end(cal.cover);
    for day in from..end {
        put_if_closed(rt, cal, day);
    }
}

// A seed and a cover; the refusal, the calendar's cover, questions 5 and 6, and its closed days.
fn calendar_line(rt: HostRuntime, seed: u32, first_year: u16, years: u16) {
    let made = calendar_synthetic::make(seed, Cover { first_year, years });
    let refusal = made.map_or_else(|refusal| refusal.number(), |_| 0);
    let cal = made.unwrap_or(calendar::zero_calendar());
    let cover = cal.cover;
    start_line(rt, b'Z');
    put_number(rt, seed);
    put_number(rt, first_year);
    put_number(rt, years);
    put_number(rt, refusal);
    put_number(rt, cover.first_year);
    put_number(rt, cover.years);
    put_answer(rt, calendar_checks::is_clean(cal));
    put_answer(rt, calendar_checks::every_week_trades(cal));
    put_closed(rt, cal);
    end_line(rt);
}

// Each year with two seeds, which lie 20,000,003 apart.
fn years(rt: HostRuntime) {
    for i in 0..200u16 {
        let seed = 20000003 * (i as u32);
        value_line(rt, seed);
        calendar_line(rt, seed, 2000 + i % 100, 1);
    }
}

// Seeds that meet 'unless that would leave a seven-day run without a trading day', long covers, and covers that are refused.
fn covers(rt: HostRuntime) {
    calendar_line(rt, 26355, 2000, 1);
    calendar_line(rt, 59783, 2000, 1);
    calendar_line(rt, 8256, 2000, 14);
    calendar_line(rt, 1, 2008, 3);
    calendar_line(rt, 4294967295, 2000, 16);
    calendar_line(rt, 2147483648, 2084, 16);
    calendar_line(rt, 7, 2000, 0);
    calendar_line(rt, 7, 2000, 17);
    calendar_line(rt, 7, 1999, 1);
    calendar_line(rt, 7, 2090, 11);
    calendar_line(rt, 7, 2100, 1);
    calendar_line(rt, 7, 65535, 65535);
}

pub(crate) fn print(rt: HostRuntime) {
    years(rt);
    covers(rt);
}
