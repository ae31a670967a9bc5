// The front and the listed maturities of a product on a date.
#![tactic(auto)]

ghost use Rattle.std.specs.Prelude.{◌≡◌, false, ◌&&◌, leb, get_or, replicate, ◌-◌, ◌≤◌, ◌<◌};
ghost use Rattle.product.specs.Fields.{kind_number};
ghost use Rattle.calendar.specs.Trading.{cover_start, calendar_with};
ghost use Rattle.listing.specs.Rules.{front, count_from, next_of, NextAfter, unused};
ghost use Rattle.expiry.specs.LastDays.{weekly_friday, key_of, last_trading_day};
ghost use Rattle.listing.specs.Months.{month_sets, names2005, in_set, set_at, places_of_kind, counted_for, rule_of, listing_of, week_into_cover};

use calendar::{Calendar, Cover};
use product::{Kind, ListingText, Term};

// A listed maturity: its key, which is its month or the day number of its Friday, its last trading day,
// and how many days that day lies before the anchor. A listing that is not yet numbered has number 0.
#[repr(C)]
#[derive(Clone, Copy)]
pub struct Maturity {
    pub key: u16,
    pub day: u16,
    pub back: u16,
    pub number: u16,
}

// The places of a listing or a table.
pub type Places = [Maturity; 15];

// A fresh listing: complete where all its maturities are in the cover. Unused places are zero.
#[derive(Clone, Copy)]
pub struct Listing {
    pub complete: bool,
    pub maturities: [Maturity; 15],
}

// The counts of the four steps, by kind.
const COUNTS: [[u8; 4]; 6] = [
    [13, 0, 0, 2],
    [3, 3, 0, 0],
    [3, 3, 2, 0],
    [3, 3, 4, 2],
    [7, 0, 0, 0],
    [4, 0, 0, 0],
];

// Whether a month is in the set of a step of kinds 0 to 3: every month, quarters, half years, Decembers.
fn in_month_set(step: usize, month: u16) -> bool
    requires { step < 4 }
    ensures { result ≡ get_or month_sets step (λ m. false) month }
{
    let name = month % 12 + 1;
    match step {
        0 => true,
        1 => name % 3 == 0,
        2 => name % 6 == 0,
        _ => name == 12,
    }
}

// 02, note 1: whether a month has one of the seven names, the quarters' and April, May, July.
fn is_of_2005(month: u16) -> bool
    ensures { result ≡ in_set names2005 month }
{
    let name = month % 12 + 1;
    (name % 3 == 0) | ((name == 4) | ((name == 5) | (name == 7)))
}

// Whether a key is in the set of a step of a kind.
fn in_set(kind: Kind, step: usize, key: u16) -> bool
    requires { step < 4 }
    ensures { result ≡ set_at (kind_number kind) step key }
{
    match kind {
        Kind::Future(ListingText::Of2005) => is_of_2005(key),
        Kind::Option(Term::Weeks5) => expiry::is_weekly_friday(key),
        _ => in_month_set(step, key),
    }
}

// How many months after a month the next one of a step's set of kinds 0 to 3 comes; 0 where it is in the set itself.
fn months_to_set(step: usize, month: u16) -> u16
    requires { step < 4 }
    ensures { NextAfter (get_or month_sets step (λ m. false)) month result }
{
    match step {
        0 => 0,
        1 => 2 - month % 3,
        2 => 5 - month % 6,
        _ => 11 - month % 12,
    }
}

// The next month of a step's set of kinds 0 to 3; the first month beyond the cover where the cover has none.
fn next_month(step: usize, from: u16, end: u16) -> u16
    requires { step < 4 }
    ensures { result ≡ next_of end (get_or month_sets step (λ m. false)) from }
{
    if end <= from {
        return end;
    }
    let months = months_to_set(step, from);
    if end - from <= months {
        return end;
    }
    from + months
}

// The next key of a step's set; the first key beyond the cover where the cover has none.
fn next_in_set(kind: Kind, step: usize, from: u16, end: u16) -> u16
    requires { step < 4 }
    ensures { result ≡ next_of end (set_at (kind_number kind) step) from }
{
    match kind {
        Kind::Future(ListingText::Of2005) | Kind::Option(Term::Weeks5) => (from..end)
            .find(|key| in_set(kind, step, *key))
            .unwrap_or(end),
        _ => next_month(step, from, end),
    }
}

// How many maturities a complete listing of a kind has: the sum of its row of counts.
pub fn places_of_kind(kind: Kind) -> u16
    ensures { (result ≡ places_of_kind kind) × (result ≤ 15) }
{
    let row = product::kind_number(kind) as usize;
    COUNTS[row].iter().map(|count| *count as u16).sum()
}

// Whether a key is in the first step's set of a kind, and its last trading day is not before the date.
fn may_be_front(
    cover: Cover,
    closed: &[u8],
    kind: Kind,
    group: [u8; 4],
    date: u16,
    key: u16,
) -> bool
    ensures { result ≡ (set_at (kind_number kind) 0 key && leb date (last_trading_day (calendar_with cover closed.now) kind group key)) }
{
    if !in_set(kind, 0, key) {
        return false;
    }
    let last = expiry::last_trading_day_in(cover, closed, kind, group, key);
    date <= last.day
}

// The front of a kind on a date, by the cover and the lent maps; the first key beyond the cover where the cover has none.
pub fn front_key_in(cover: Cover, closed: &[u8], kind: Kind, group: [u8; 4], date: u16) -> u16
    ensures { result ≡ front (rule_of (calendar_with cover closed.now) kind group) (calendar_with cover closed.now) date }
{
    let end = expiry::end_key(kind, cover);
    let start = expiry::key_of(kind, date);
    (start..end)
        .find(|key| may_be_front(cover, closed, kind, group, date, *key))
        .unwrap_or(end)
}

// The same of a calendar.
pub fn front_key(cal: Calendar, kind: Kind, group: [u8; 4], date: u16) -> u16
    ensures { result ≡ front (rule_of cal kind group) cal date }
{
    let cover = cal.cover;
    front_key_in(cover, &cal.closed, kind, group, date)
}

// The number of weekly Fridays before a day: a Friday for every seven days,
// less the third Fridays, one for each month that is over and the month's own once it is passed.
fn weekly_before(day: u16) -> u16
    ensures { result ≡ count_from weekly_friday day 0 }
{
    let month = days::month_of(day);
    if expiry::third_friday(month) < day {
        return day / 7 - month - 1;
    }
    day / 7 - month
}

// The number of the cover's months, or of its weekly Fridays, before a key, which is the front where question 10 asks.
pub fn keys_before(kind: Kind, cover: Cover, key: u16) -> u16
    ensures { result ≡ count_from (counted_for kind) (key - key_of kind (cover_start cover)) (key_of kind (cover_start cover)) }
{
    let first = expiry::key_of(kind, calendar::cover_start(cover));
    if key < first {
        return 0;
    }
    if product::is_weekly(kind) {
        return weekly_before(key) - weekly_before(first);
    }
    key - first
}

// Fifteen places, none of which is used.
pub fn unused_places() -> Places
    ensures { result ≡ replicate 15 unused }
{
    let unused = Maturity {
        key: 0,
        day: 0,
        back: 0,
        number: 0,
    };
    [unused; 15]
}

// The fresh listing of a product on a date, by the cover and the lent maps.
pub fn list_in(cover: Cover, closed: &[u8], kind: Kind, group: [u8; 4], date: u16) -> Listing
    ensures { result ≡ listing_of (calendar_with cover closed.now) kind group date }
{
    let row = product::kind_number(kind) as usize;
    let end = expiry::end_key(kind, cover);
    let mut maturities = unused_places();
    let mut listed: usize = 0;
    let mut from = front_key_in(cover, closed, kind, group, date);
    let mut complete = true;
    'steps: for step in 0..4 {
        let count = COUNTS[row][step];
        for j in 0..count {
            let key = next_in_set(kind, step, from, end);
            if end <= key {
                complete = false;
                break 'steps;
            }
            let last = expiry::last_trading_day_in(cover, closed, kind, group, key);
            maturities[listed] = Maturity {
                key,
                day: last.day,
                back: last.back,
                number: 0,
            };
            listed += 1;
            from = key + 1;
        }
    }
    Listing {
        complete,
        maturities,
    }
}

// The fresh listing of a product on a date.
pub fn list(cal: Calendar, kind: Kind, group: [u8; 4], date: u16) -> Listing
    ensures { result ≡ listing_of cal kind group date }
{
    let cover = cal.cover;
    list_in(cover, &cal.closed, kind, group, date)
}

// Question 24, which is asked of weekly products only.
pub fn is_week_into_cover(kind: Kind, cover: Cover, date: u16) -> bool
    ensures { result ≡ week_into_cover kind cover date }
{
    if !product::is_weekly(kind) {
        return true;
    }
    calendar::cover_start(cover) + 7 <= date
}
