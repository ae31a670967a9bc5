// Questions on the closed days of a calendar: 5, 6 and 15.
#![tactic(auto)]

ghost use Rattle.std.specs.Prelude.{◌≡◌, not, ◌&&◌, ◌||◌, cond, true, ℕ, ◌+◌, ◌-◌, ◌*◌, ◌%◌, ◌^◌, ◌≤◌, ◌<◌, eqb, ltb, get_or};
ghost use Rattle.std.specs.Int.Bits.{bit_and};
ghost use Rattle.questions.specs.Search.{every};
ghost use Rattle.days.specs.Gregorian.{weekday_of};
ghost use Rattle.days.specs.Dates.{year_start};
ghost use Rattle.calendar.specs.Bits.{byte_bit, bit_at};
ghost use Rattle.calendar.specs.Trading.{calendar_of_maps, calendar_with, valid_cover, cover_start, cover_end, may_close, may_be_closed, clean, every_week, close_day};
ghost use Rattle.calendar.proofs.Weeks.{weeks_in};
ghost use Rattle.calendar_words.specs.DayWords.{day_bit, Shows};
ghost use Rattle.calendar_checks.specs.Maps.{Barred, Used};
ghost use Rattle.calendar_words.proofs.Windows.{Ends, TradesUntil};

use calendar::{Calendar, Cover};

// Whether the year has a day n, from 0, and it is a Monday to Friday.
pub fn may_close(year: u16, n: u16) -> bool
    ensures { result ≡ may_close year n }
{
    if 2100 <= year {
        return false;
    }
    let start = days::year_start(year);
    let end = days::year_start(year + 1);
    if end <= n {
        return false;
    }
    if end - n <= start {
        return false;
    }
    days::weekday(start + n) < 5
}

// The days of 64 from a year's first on that may not be closed: the weekends; all where the year has no days.
fn year_barred(year: u16) -> u64
    requires { year ≤ 2115 }
    ensures { Barred year result }
{
    let start = days::year_start(year);
    if days::year_start(year + 1) <= start {
        return 0xFFFFFFFFFFFFFFFF;
    }
    calendar_words::weekends_from(start)
}

// The days of the rest of the year's map that may not be closed: these, and the bits after the year's end.
fn rest_barred(year: u16, barred: u64) -> u64
    requires { Barred year barred }
    ensures { (p : ℕ) → p < 32 → day_bit 32 result p ≡ not (may_close year (336 + p)) }
{
    if year % 4 == 0 {
        return barred >> 32 | 3;
    }
    barred >> 32 | 7
}

// Whether a word of closed days has no day that may not be closed.
fn is_apart(word: u64, barred: u64) -> bool
    ensures { result ≡ eqb (bit_and word barred) 0 }
{
    word & barred == 0
}

// Question 5, of the map of one year, eight weeks at a time, in which the weekends stand at the same bits.
fn year_is_clean(closed: &[u8; 736], k: u16, year: u16) -> bool
    requires { (k < 16) × (year ≤ 2115) }
    ensures { result ≡ every 368 (λ n. not (bit_at closed.now (368 * k + n)) || may_close year n) }
{
    let barred = year_barred(year);
    (0..6).all(|j| is_apart(calendar_words::weeks_of(closed, k, j), barred >> 8))
        & is_apart(
            calendar_words::rest_of(closed, k),
            rest_barred(year, barred),
        )
}

// How many maps may have closed days: one for each year of the cover, of 16; none where it begins after 2099.
fn maps_used(cover: Cover) -> u16
    ensures { Used cover result }
{
    if 2100 <= cover.first_year {
        return 0;
    }
    if 16 < cover.years {
        return 16;
    }
    cover.years
}

// Question 5, of the first map: only Mondays to Fridays of the cover are closed. The years after the cover's last have no day.
fn first_is_clean(cover: Cover, closed: &[u8; 736]) -> bool
    ensures { result ≡ every 5888 (λ s. not (bit_at closed.now s) || may_be_closed cover s) }
{
    let used = maps_used(cover);
    (0..used).all(|k| year_is_clean(closed, k, cover.first_year + k))
        & calendar_words::is_empty_after(closed, used)
}

// The same of both maps: the second has only days that the first has.
fn maps_are_clean<'a>(cover: Cover, closed: &'a [u8; 736], exchange: &'a [u8; 736]) -> bool
    ensures { result ≡ clean (calendar_of_maps cover closed.now exchange.now) }
{
    first_is_clean(cover, closed) & calendar_words::is_within(exchange, closed)
}

// Question 5, of a calendar: only Mondays to Fridays of the cover are closed, and only closed days are in the second map.
pub fn is_clean(cal: Calendar) -> bool
    ensures { result ≡ clean cal }
{
    let cover = cal.cover;
    maps_are_clean(cover, &cal.closed, &cal.exchange)
}

// A byte of the maps; one past the end counts as 0.
fn byte_of(closed: &[u8], at: usize) -> u8
    ensures { result ≡ get_or closed.now at 0 }
{
    if at < closed.len() {
        return closed[at];
    }
    0
}

// Whether a day of the cover trades, by its slot and the byte that has it.
fn trades_on(day: u16, slot: usize, byte: u8) -> bool
    ensures { result ≡ (ltb (weekday_of day) 5 && not (byte_bit byte (slot % 8))) }
{
    if 5 <= days::weekday(day) {
        return false;
    }
    !((byte >> (7 - slot % 8)) % 2 == 1)
}

// Where the first run that is not known to hold a trading day begins, after a look at a day of it.
fn next_first(trades: bool, first: u16, day: u16) -> u16
    requires { day ≤ 36525 }
    ensures { result ≡ cond trades (day + 1) first }
{
    if trades {
        return day + 1;
    }
    first
}

// The day to look at next: the last of that run, or the day before.
fn next_day(trades: bool, day: u16) -> u16
    requires { day ≤ 36525 }
    ensures { result ≡ cond trades (day + 7) (day - 1) }
{
    if trades {
        return day + 7;
    }
    if day == 0 {
        return 0;
    }
    day - 1
}

// Question 6, of the runs in a part of the cover.
// The runs that begin before `first` hold a trading day. In the run that begins there the days after `day` do not trade.
// A trading day is in every run that begins in the week up to it.
fn weeks_trade(cover: Cover, closed: &[u8], from: u16, to: u16) -> bool
    requires { (cover_start cover ≤ from) × (from ≤ to) × (to ≤ cover_end cover) × (to ≤ 36525) }
    ensures { result ≡ weeks_in (calendar_with cover closed.now) from to }
{
    let mut first = from;
    let mut day = first + 6;
    while first + 7 <= to {
        let slot = calendar::slot_of(cover, day);
        let byte = byte_of(closed, slot / 8);
        let trades = trades_on(day, slot, byte);
        if !trades & (day == first) {
            return false;
        }
        first = next_first(trades, first, day);
        day = next_day(trades, day);
    }
    true
}

// Every run, one after the other.
fn all_weeks_trade(cover: Cover, closed: &[u8]) -> bool
    ensures { result ≡ every_week (calendar_with cover closed.now) }
{
    weeks_trade(
        cover,
        closed,
        calendar::cover_start(cover),
        calendar::cover_end(cover),
    )
}

// How many days of a year the rest of its map has.
fn rest_length(year: u16) -> u64
    requires { (2000 ≤ year) × (year < 2100) }
    ensures { (year_start (year + 1) ≡ year_start year + 336 + result) × (29 ≤ result) × (result ≤ 30) }
{
    if year % 4 == 0 {
        return 30;
    }
    29
}

// The days of a year after six times eight weeks.
fn rest_days(closed: &[u8; 736], k: u16, length: u64) -> u64
    requires { (k < 16) × (length ≤ 32) }
    ensures { Shows closed.now (368 * k + 336) length result × (result < 2 ^ length) }
{
    calendar_words::rest_of(closed, k) >> (32 - length)
}

// The last days of the year before year k, of which eight count; none before the cover.
fn days_before(cover: Cover, closed: &[u8; 736], k: u16) -> u64
    requires { (k < cover.years) × (valid_cover cover ≡ true) }
    ensures { Ends (calendar_with cover closed.now) (year_start (cover.first_year + k)) 8 result }
{
    if k == 0 {
        return 0;
    }
    let first = cover.first_year;
    rest_days(closed, k - 1, rest_length(first + (k - 1)))
}

// The runs that end in the rest of year k.
fn rest_trades(cover: Cover, closed: &[u8; 736], k: u16, window: u64) -> bool
    requires { (k < cover.years) × (valid_cover cover ≡ true) × Ends (calendar_with cover closed.now) (year_start (cover.first_year + k) + 336) 8 window }
    ensures { result ≡ true → TradesUntil (calendar_with cover closed.now) (year_start (cover.first_year + k) + 336) → TradesUntil (calendar_with cover closed.now) (year_start (cover.first_year + k + 1)) }
{
    let year = cover.first_year + k;
    let length = rest_length(year);
    let next = rest_days(closed, k, length);
    let end = days::year_start(year + 1);
    calendar_words::no_seven(
        calendar_words::moved_on(window, next, length) | calendar_words::weekends_from(end + 6),
    )
}

// The runs that end in year k: a window of 64 days, the last eight of them known, moves on by eight weeks at a time, so that the weekends stay at their bits.
fn year_trades(cover: Cover, closed: &[u8; 736], k: u16) -> bool
    requires { (k < cover.years) × (valid_cover cover ≡ true) }
    ensures { result ≡ true → TradesUntil (calendar_with cover closed.now) (year_start (cover.first_year + k)) → TradesUntil (calendar_with cover closed.now) (year_start (cover.first_year + k + 1)) }
{
    let weekends = calendar_words::weekends_from(days::year_start(cover.first_year + k) + 6);
    let mut window = days_before(cover, closed, k);
    for j in 0..6 {
        window = calendar_words::moved_on(window, calendar_words::weeks_of(closed, k, j), 56);
        if !calendar_words::no_seven(window | weekends) {
            return false;
        }
    }
    rest_trades(cover, closed, k, window)
}

// A quick look at all runs, in a valid cover: yes where no window has seven idle days in a row.
fn years_trade(cover: Cover, closed: &[u8; 736]) -> bool
    requires { valid_cover cover ≡ true }
    ensures { result ≡ true → every_week (calendar_with cover closed.now) ≡ true }
{
    (0..cover.years).all(|k| year_trades(cover, closed, k))
}

// Question 6: every run of seven days in the cover holds a trading day. The quick look answers yes; the loop over the days answers the rest.
pub fn every_week_trades(cal: Calendar) -> bool
    ensures { result ≡ every_week cal }
{
    let cover = cal.cover;
    if !calendar::is_valid_cover(cover) {
        return all_weeks_trade(cover, &cal.closed);
    }
    if years_trade(cover, &cal.closed) {
        return true;
    }
    all_weeks_trade(cover, &cal.closed)
}

// Question 15: with the day closed, every run of seven days still holds a trading day.
pub fn trades_with_closed(cal: Calendar, day: u16) -> bool
    ensures { result ≡ every_week (close_day cal day) }
{
    every_week_trades(calendar::close_day(cal, day))
}
