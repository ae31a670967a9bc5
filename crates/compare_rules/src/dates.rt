// The months, and the answers to many dates and day numbers.
use compare_text::{end_line, put_number, start_line};

// Number, first day, weekday of that day, length.
fn months(rt: HostRuntime) {
    for k in 0..1200u16 {
        let first = days::first_day(k);
        start_line(rt, b'M');
        put_number(rt, k);
        put_number(rt, first);
        put_number(rt, days::weekday(first));
        put_number(rt, days::month_length(2000 + k / 12, k % 12 + 1));
        end_line(rt);
    }
}

// Refusal and day number of a date.
fn date(rt: HostRuntime, year: u16, month: u16, day: u16) {
    start_line(rt, b'D');
    put_number(rt, year);
    put_number(rt, month);
    put_number(rt, day);
    match days::day_of_date(year, month, day) {
        Ok(number) => {
            put_number(rt, 0);
            put_number(rt, number);
        }
        Err(refusal) => {
            put_number(rt, refusal.number() as u16);
            put_number(rt, 0);
        }
    }
    end_line(rt);
}

fn month_dates(rt: HostRuntime, year: u16) {
    for month in 0..14u16 {
        date(rt, year, month, 0);
        date(rt, year, month, 1);
        date(rt, year, month, 28);
        date(rt, year, month, 29);
        date(rt, year, month, 30);
        date(rt, year, month, 31);
        date(rt, year, month, 32);
    }
}

fn all_dates(rt: HostRuntime) {
    for year in 1996..2104u16 {
        month_dates(rt, year);
    }
}

// Refusal and date of a day number.
fn number(rt: HostRuntime, n: u16) {
    start_line(rt, b'N');
    put_number(rt, n);
    match days::date_of_day(n) {
        Ok(d) => {
            put_number(rt, 0);
            put_number(rt, d.year);
            put_number(rt, d.month);
            put_number(rt, d.day);
        }
        Err(refusal) => {
            put_number(rt, refusal.number() as u16);
            put_number(rt, 0);
            put_number(rt, 0);
            put_number(rt, 0);
        }
    }
    end_line(rt);
}

fn spread_numbers(rt: HostRuntime) {
    for i in 0..1772u16 {
        number(rt, 37 * i);
    }
}

fn last_numbers(rt: HostRuntime) {
    for n in 36490..36561u16 {
        number(rt, n);
    }
}

pub(crate) fn print(rt: HostRuntime) {
    months(rt);
    all_dates(rt);
    spread_numbers(rt);
    last_numbers(rt);
}
