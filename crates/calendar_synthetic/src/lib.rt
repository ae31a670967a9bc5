// Made-up calendars for load tests: from the same seed and cover the same closed days.
#![tactic(auto)]

ghost use Rattle.std.specs.Prelude.{◌≡◌};
ghost use Rattle.calendar_synthetic.specs.Generated.{next_value, value_at, calendar_at, made_call};
ghost use Rattle.calendar.specs.Trading.{zero_calendar};
ghost use Rattle.questions.specs.Refusals.{result_answer};

use calendar::{Calendar, Cover};
use questions::Refusal;

// The value after a value. The product needs 53 bits.
pub fn next_value(value: u32) -> u32
    ensures { result ≡ next_value value }
{
    ((1664525 * (value as u64) + 1013904223) % 4294967296) as u32
}

// The value at a day: a new one for a Monday to Friday.
fn value_at(day: u16, value: u32) -> u32
    ensures { result ≡ value_at day value }
{
    if 5 <= days::weekday(day) {
        return value;
    }
    next_value(value)
}

// The calendar after a day was visited with its value.
fn calendar_at(cal: Calendar, day: u16, value: u32) -> Calendar
    ensures { result ≡ calendar_at cal day value }
{
    if 5 <= days::weekday(day) {
        return cal;
    }
    if 8 <= value / 16777216 {
        return cal;
    }
    let next = calendar::close_day(cal, day);
    if !calendar_checks::every_week_trades(next) {
        return cal;
    }
    next
}

// The calendar of a seed, for a cover of 1 to 16 years from 2000 to 2099. The first value is the one after the seed.
pub fn make(seed: u32, cover: Cover) -> Result<Calendar, Refusal>
    ensures { result_answer zero_calendar result ≡ made_call seed cover }
{
    if !calendar::is_valid_cover(cover) {
        return Err(Refusal::WrongBlocks);
    }
    let mut cal = calendar::open_calendar(cover);
    let mut value = seed;
    for day in calendar::cover_start(cover)..calendar::cover_end(cover) {
        value = value_at(day, value);
        cal = calendar_at(cal, day, value);
    }
    Ok(cal)
}
