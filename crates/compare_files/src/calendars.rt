// The calendar of a file.
ghost use Rattle.std.specs.Prelude.{ℕ};

use calendar::Cover;
use compare_text::{end_line, put_number, start_line};

// The number of days of the cover that a map has and the sum of their day numbers.
#[derive(Clone, Copy)]
struct Days {
    count: u64,
    sum: u64,
}

// The days of a cover that pass a test.
fn days_marked<F: Fn(u16) -> bool>(cover: Cover, is_marked: F) -> Days
    requires { (day : ℕ) → F.pre is_marked day }
{
    let mut count: u64 = 0;
    let mut sum: u64 = 0;
    for day in calendar::cover_start(cover)..calendar::cover_end(cover) {
        if is_marked(day) {
            count += 1;
            sum += u64::from(day);
        }
    }
    Days { count, sum }
}

// Those of the second map are printed where it has any.
fn put_second(rt: HostRuntime, days: Days) {
    if days.count == 0 {
        return;
    }
    put_number(rt, days.count);
    put_number(rt, days.sum);
}

pub(crate) fn print(rt: HostRuntime, file: &[u8]) {
    let cal = file_calendar::calendar_of(file);
    let cover = cal.cover;
    let closed = days_marked(cover, |day: u16| -> bool { calendar::is_closed(cal, day) });
    let second = days_marked(cover, |day: u16| -> bool {
        calendar::is_in_second_map(cal, day)
    });
    start_line(rt, b'C');
    put_number(rt, cover.first_year);
    put_number(rt, cover.years);
    put_number(rt, closed.count);
    put_number(rt, closed.sum);
    put_second(rt, second);
    end_line(rt);
}
