// Last trading days and listings of every kind, for an Italian group and another, on covers with clusters of closures.
ghost use Rattle.std.specs.Prelude.{◌<◌};

use crate::patterns::closed_by;
use calendar::{Calendar, Cover};
use compare_text::{end_line, put_answer, put_maturities, put_number, start_line};
use product::{Kind, ListingText};

// The last trading day of each month of the cover, and the days stepped back.
fn month_lines(rt: HostRuntime, cal: Calendar, group: [u8; 4]) {
    let first = days::month_of(calendar::cover_start(cal.cover));
    let end = days::month_of(calendar::cover_end(cal.cover));
    for month in first..end {
        start_line(rt, b'A');
        put_number(rt, month);
        put_number(rt, expiry::third_friday(month));
        let last = expiry::last_trading_day(cal, Kind::Future(ListingText::Of2008), group, month);
        put_number(rt, last.day);
        put_number(rt, last.back);
        end_line(rt);
    }
}

// The listing of one kind on one date.
fn listing_line(rt: HostRuntime, cal: Calendar, kind: Kind, group: [u8; 4], date: u16) {
    let l = listing::list(cal, kind, group, date);
    let maturities = l.maturities;
    start_line(rt, b'L');
    put_number(rt, date);
    put_number(rt, listing::front_key(cal, kind, group, date));
    put_answer(rt, l.complete);
    put_maturities(rt, &maturities);
    end_line(rt);
}

fn kind_lines(rt: HostRuntime, cal: Calendar, number: u8, group: [u8; 4]) {
    let Ok(kind) = Kind::try_from(number) else {
        return;
    };
    let end = calendar::cover_end(cal.cover);
    let mut date = calendar::cover_start(cal.cover);
    while date < end {
        listing_line(rt, cal, kind, group, date);
        date += 41;
    }
}

fn group_lines(rt: HostRuntime, cal: Calendar, group: [u8; 4]) {
    month_lines(rt, cal, group);
    kind_lines(rt, cal, 0, group);
    kind_lines(rt, cal, 1, group);
    kind_lines(rt, cal, 2, group);
    kind_lines(rt, cal, 3, group);
    kind_lines(rt, cal, 4, group);
    kind_lines(rt, cal, 5, group);
}

fn cover(rt: HostRuntime, first_year: u16, years: u16) {
    let c = Cover { first_year, years };
    for pattern in 3..6u16 {
        let cal = closed_by(c, pattern);
        start_line(rt, b'S');
        put_number(rt, first_year);
        put_number(rt, years);
        put_number(rt, pattern);
        end_line(rt);
        group_lines(rt, cal, [70, 82, 49, 49]);
        group_lines(rt, cal, [73, 84, 48, 49]);
    }
}

pub(crate) fn print(rt: HostRuntime) {
    cover(rt, 2000, 2);
    cover(rt, 2008, 3);
    cover(rt, 2020, 6);
    cover(rt, 2098, 2);
}
