// The cover, its closed days, its trading days and its exchange days.
#![tactic(auto)]

ghost use Rattle.std.specs.Prelude.{◌≡◌, ◌&&◌, ◌-◌, ◌≤◌};
ghost use Rattle.calendar.specs.Bits.{bit_at, set_bit, clear_bit};
ghost use Rattle.calendar.specs.Trading.{calendar_of_maps, calendar_with, open_calendar, zero_calendar, valid_cover, cover_start, cover_end, in_cover, slot_of, closed_on, trading_day, in_second_map, exchange_day, next_exchange_day, nth_exchange_day, close_day, reopen_day, closed_weekday};

// A run of whole years.
#[repr(C)]
#[derive(Clone, Copy, PartialEq, Eq)]
pub struct Cover {
    pub first_year: u16,
    pub years: u16,
}

// Two maps: the closed days, and those of them on which payments and deliveries run (02, note 4).
// In each, year k of the cover has the 46 bytes from 46 · k on, in the bit order of the file.
#[repr(C)]
#[derive(Clone, Copy)]
pub struct Calendar {
    pub cover: Cover,
    pub closed: [u8; 736],
    pub exchange: [u8; 736],
}

// A cover with nothing in its maps.
pub fn open_calendar(cover: Cover) -> Calendar
    ensures { result ≡ open_calendar cover }
{
    let closed = [0u8; 736];
    let exchange = [0u8; 736];
    Calendar {
        cover,
        closed,
        exchange,
    }
}

// A calendar of zeros.
pub fn zero_calendar() -> Calendar
    ensures { result ≡ zero_calendar }
{
    let cover = Cover {
        first_year: 0,
        years: 0,
    };
    open_calendar(cover)
}

// 1 to 16 years from 2000 to 2099.
pub fn is_valid_cover(cover: Cover) -> bool
    ensures { result ≡ valid_cover cover }
{
    (1..=16).contains(&cover.years) && (2000..=2100 - cover.years).contains(&cover.first_year)
}

// The first day of the cover.
pub fn cover_start(cover: Cover) -> u16
    ensures { (result ≡ cover_start cover) × (result ≤ 36525) }
{
    days::year_start(cover.first_year)
}

// The day after the cover's last.
pub fn cover_end(cover: Cover) -> u16
    ensures { (result ≡ cover_end cover) × (result ≤ 36525) }
{
    days::year_start(cover.first_year.saturating_add(cover.years))
}

pub fn in_cover(cover: Cover, day: u16) -> bool
    ensures { result ≡ in_cover cover day }
{
    (cover_start(cover)..cover_end(cover)).contains(&day)
}

// The place of a day's bit in the maps of the years.
pub fn slot_of(cover: Cover, day: u16) -> usize
    ensures { result ≡ slot_of cover day }
{
    let year = days::year_of(day).saturating_sub(cover.first_year);
    368 * (year as usize) + (days::day_in_year(day) as usize)
}

// Whether a day is in the cover, by its year, which its slot needs too.
fn has_year_of(cover: Cover, day: u16) -> bool
    ensures { result ≡ in_cover cover day }
{
    if 36525 <= day {
        return false;
    }
    match days::year_of(day).checked_sub(cover.first_year) {
        Some(year) => year < cover.years,
        None => false,
    }
}

// Whether a map has the bit of a slot. A bit past its end counts as 0.
fn has_bit(map: &[u8], slot: usize) -> bool
    ensures { result ≡ bit_at map.now slot }
{
    match map.get(slot / 8) {
        Some(byte) => (*byte >> (7 - slot % 8)) % 2 == 1,
        None => false,
    }
}

// Sets the bit of a slot; a slot past the map's end changes nothing.
fn set_bit(map: &mut [u8], slot: usize)
    ensures { map.new ≡ set_bit map.old slot }
{
    let at = slot / 8;
    if at < map.len() {
        map[at] = map[at] | 1 << (7 - slot % 8);
    }
}

// Clears the bit of a slot; a slot past the map's end changes nothing.
fn clear_bit(map: &mut [u8], slot: usize)
    ensures { map.new ≡ clear_bit map.old slot }
{
    let at = slot / 8;
    if at < map.len() {
        map[at] = map[at] & (255 - (1 << (7 - slot % 8)));
    }
}

// Whether a map has the day. None has a day outside the cover.
fn is_marked(cover: Cover, map: &[u8], day: u16) -> bool
    ensures { result ≡ (in_cover cover day && bit_at map.now (slot_of cover day)) }
{
    has_year_of(cover, day) && has_bit(map, slot_of(cover, day))
}

// A day outside the cover is not closed.
pub fn is_closed(cal: Calendar, day: u16) -> bool
    ensures { result ≡ closed_on cal day }
{
    let cover = cal.cover;
    is_marked(cover, &cal.closed, day)
}

// Whether the day is an exchange day without trading (02, note 4). None is outside the cover.
pub fn is_in_second_map(cal: Calendar, day: u16) -> bool
    ensures { result ≡ in_second_map cal day }
{
    let cover = cal.cover;
    is_marked(cover, &cal.exchange, day)
}

// Whether a day is a trading day, by the cover and the lent maps.
pub fn is_trading_day_in(cover: Cover, closed: &[u8], day: u16) -> bool
    ensures { result ≡ trading_day (calendar_with cover closed.now) day }
{
    if !has_year_of(cover, day) {
        return false;
    }
    if 5 <= days::weekday(day) {
        return false;
    }
    !has_bit(closed, slot_of(cover, day))
}

pub fn is_trading_day(cal: Calendar, day: u16) -> bool
    ensures { result ≡ trading_day cal day }
{
    let cover = cal.cover;
    is_trading_day_in(cover, &cal.closed, day)
}

// Whether a day is a trading day or one of the second map, by the cover and the lent maps.
pub fn is_exchange_day_in<'a>(cover: Cover, closed: &'a [u8], exchange: &'a [u8], day: u16) -> bool
    ensures { result ≡ exchange_day (calendar_of_maps cover closed.now exchange.now) day }
{
    if is_trading_day_in(cover, closed, day) {
        return true;
    }
    is_marked(cover, exchange, day)
}

pub fn is_exchange_day(cal: Calendar, day: u16) -> bool
    ensures { result ≡ exchange_day cal day }
{
    let cover = cal.cover;
    is_exchange_day_in(cover, &cal.closed, &cal.exchange, day)
}

// The first exchange day after a day, by the cover and the lent maps; 36,525 where the cover has none.
pub fn next_exchange_day_in<'a>(cover: Cover, closed: &'a [u8], exchange: &'a [u8], day: u16) -> u16
    ensures { result ≡ next_exchange_day (calendar_of_maps cover closed.now exchange.now) day }
{
    (day.saturating_add(1)..cover_end(cover))
        .find(|d| is_exchange_day_in(cover, closed, exchange, *d))
        .unwrap_or(36525)
}

// The n-th exchange day after a day, by the cover and the lent maps; 36,525 where the cover has none.
pub fn nth_exchange_day_in<'a>(
    cover: Cover,
    closed: &'a [u8],
    exchange: &'a [u8],
    day: u16,
    n: u16,
) -> u16
    ensures { result ≡ nth_exchange_day (calendar_of_maps cover closed.now exchange.now) n day }
{
    let mut d = day;
    for _ in 0..n {
        d = next_exchange_day_in(cover, closed, exchange, d);
    }
    d
}

// The n-th exchange day after a day; 36,525 where the cover has none.
pub fn nth_exchange_day(cal: Calendar, day: u16, n: u16) -> u16
    ensures { result ≡ nth_exchange_day cal n day }
{
    let cover = cal.cover;
    nth_exchange_day_in(cover, &cal.closed, &cal.exchange, day, n)
}

// The calendar with one day closed, the second map as it was; a day outside the cover changes nothing.
pub fn close_day(cal: Calendar, day: u16) -> Calendar
    ensures { result ≡ close_day cal day }
{
    let cover = cal.cover;
    if !in_cover(cover, day) {
        return cal;
    }
    let mut next = cal;
    set_bit(&mut next.closed, slot_of(cover, day));
    next
}

// The calendar with one day open again, in both maps; a day outside the cover changes nothing.
pub fn reopen_day(cal: Calendar, day: u16) -> Calendar
    ensures { result ≡ reopen_day cal day }
{
    let cover = cal.cover;
    if !in_cover(cover, day) {
        return cal;
    }
    let slot = slot_of(cover, day);
    let mut next = cal;
    clear_bit(&mut next.closed, slot);
    clear_bit(&mut next.exchange, slot);
    next
}

// Question 26: a closed Monday to Friday.
pub fn is_closed_weekday(cal: Calendar, day: u16) -> bool
    ensures { result ≡ closed_weekday cal day }
{
    if !is_closed(cal, day) {
        return false;
    }
    days::weekday(day) < 5
}
