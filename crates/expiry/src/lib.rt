// Third Fridays, weekly Fridays, anchors and last trading days. A maturity is named by its key: its month, or the day number of its Friday.
#![tactic(auto)]

ghost use Rattle.std.specs.Prelude.{◌≡◌, cond, ◌-◌, ◌≤◌};
ghost use Rattle.questions.specs.Search.{latest};
ghost use Rattle.calendar.specs.Trading.{calendar_with, cover_end, trading_day};
ghost use Rattle.product.specs.Settlement.{italian};
ghost use Rattle.expiry.specs.LastDays.{third_friday, weekly_friday, month_anchor, key_of, anchor_of, last_day, stepped_to, worked_out};

use calendar::{Calendar, Cover};
use product::Kind;

// A last trading day, and the number of days it stepped back from its anchor.
#[derive(Clone, Copy)]
pub struct LastDay {
    pub day: u16,
    pub back: u16,
}

// The third Friday of a month.
pub fn third_friday(month: u16) -> u16
    ensures { result ≡ third_friday month }
{
    let first = days::month_start(month);
    first + (11 - days::weekday(first)) % 7 + 14
}

// 02, note 3: whether a day is a Friday and not the third of its month.
pub fn is_weekly_friday(day: u16) -> bool
    ensures { result ≡ weekly_friday day }
{
    if days::weekday(day) != 4 {
        return false;
    }
    day != third_friday(days::month_of(day))
}

// For the Italian groups the day before.
fn italian_exception(group: [u8; 4], friday: u16) -> u16
    requires { 1 ≤ friday }
    ensures { result ≡ cond (italian group) (friday - 1) friday }
{
    if product::is_italian(group) {
        return friday - 1;
    }
    friday
}

// The day on which a month's trading would end: the third Friday, for the Italian groups the day before.
fn month_anchor(group: [u8; 4], month: u16) -> u16
    ensures { result ≡ month_anchor group month }
{
    italian_exception(group, third_friday(month))
}

// The anchor of a key: its month's, or the Friday itself.
pub fn anchor(kind: Kind, group: [u8; 4], key: u16) -> u16
    ensures { result ≡ anchor_of kind group key }
{
    if product::is_weekly(kind) {
        return key;
    }
    month_anchor(group, key)
}

// The latest trading day before an anchor, and the steps made back to it; day 0, a Saturday, where there is none. By the cover and the lent maps.
fn trading_day_before_in(cover: Cover, closed: &[u8], anchor: u16) -> LastDay
    ensures { result ≡ stepped_to anchor (latest (trading_day (calendar_with cover closed.now)) (anchor - 1)) }
{
    let mut back: u16 = 0;
    for day in (0..anchor).rev() {
        back += 1;
        if calendar::is_trading_day_in(cover, closed, day) {
            return LastDay { day, back };
        }
    }
    LastDay { day: 0, back }
}

// The anchor if it is a trading day, else the latest trading day before it, and the steps made back to it. By the cover and the lent maps.
pub fn last_day_in(cover: Cover, closed: &[u8], anchor: u16) -> LastDay
    ensures { result ≡ stepped_to anchor (last_day (calendar_with cover closed.now) anchor) }
{
    if calendar::is_trading_day_in(cover, closed, anchor) {
        return LastDay {
            day: anchor,
            back: 0,
        };
    }
    trading_day_before_in(cover, closed, anchor)
}

// The same of a calendar.
pub fn last_day(cal: Calendar, anchor: u16) -> LastDay
    ensures { result ≡ stepped_to anchor (last_day cal anchor) }
{
    let cover = cal.cover;
    last_day_in(cover, &cal.closed, anchor)
}

// 002, 1.6.4 (2), a step to a line, each under its words. By the cover and the lent maps.
fn month_last_day_in(cover: Cover, closed: &[u8], group: [u8; 4], month: u16) -> LastDay
    ensures { result ≡ stepped_to (month_anchor group month) (last_day (calendar_with cover closed.now) (month_anchor group month)) }
{
    // 'der dritte Freitag'
    let friday = third_friday(month);
    // '(.. Gruppenkennung IT01: der Tag vor dem dritten Freitag)'
    let usual = italian_exception(group, friday);
    // 'sofern dieser Tag ein .. Handelstag ist'
    if calendar::is_trading_day_in(cover, closed, usual) {
        return LastDay {
            day: usual,
            back: 0,
        };
    }
    // 'andernfalls der davor liegende Handelstag'
    trading_day_before_in(cover, closed, usual)
}

// The last trading day of a key: of a month by 002, 1.6.4 (2), of a weekly maturity its Friday or the trading day before it. By the cover and the lent maps.
pub fn last_trading_day_in(
    cover: Cover,
    closed: &[u8],
    kind: Kind,
    group: [u8; 4],
    key: u16,
) -> LastDay
    ensures { result ≡ worked_out (calendar_with cover closed.now) kind group key }
{
    if product::is_weekly(kind) {
        return last_day_in(cover, closed, key);
    }
    month_last_day_in(cover, closed, group, key)
}

// The same of a calendar.
pub fn last_trading_day(cal: Calendar, kind: Kind, group: [u8; 4], key: u16) -> LastDay
    ensures { result ≡ worked_out cal kind group key }
{
    let cover = cal.cover;
    last_trading_day_in(cover, &cal.closed, kind, group, key)
}

// The key of a day: its month; of weekly maturities the day itself.
pub fn key_of(kind: Kind, day: u16) -> u16
    ensures { result ≡ key_of kind day }
{
    if product::is_weekly(kind) {
        return day;
    }
    days::month_of(day)
}

// The first key beyond the cover.
pub fn end_key(kind: Kind, cover: Cover) -> u16
    ensures { (result ≡ key_of kind (cover_end cover)) × (result ≤ 36525) }
{
    key_of(kind, calendar::cover_end(cover))
}
