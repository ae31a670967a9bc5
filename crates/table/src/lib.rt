// The table of listed maturities of one product, and the calls on it.
#![tactic(auto)]

ghost use Rattle.std.specs.Prelude.{◌≡◌, true, ◌&&◌, cond, ◌≤◌, length, get_or, take, eqb};
ghost use Rattle.table_numbering.specs.Numbering.{is_listed};
ghost use Rattle.calendar.specs.Trading.{calendar_with, every_week, close_day};
ghost use Rattle.file_calendar.specs.Calendars.{calendar_answer};
ghost use Rattle.listing.specs.Rules.{front, unused};
ghost use Rattle.listing.specs.Months.{places_of_kind};
ghost use Rattle.table.specs.Table.{rule_in, covered_in, listed_in, lists_fresh, listing_sound, sound, calendar_sound, moved_to, moved, kept_in, refused_with, zero_table, opened_with, open_call, open_in, roll_call, close_call, reopen_call, steps_back, steps_on, trades_around, none_ends_on};

use calendar::{Calendar, Cover};
use file_calendar::FileCalendar;
use listing::Maturity;
use product::Product;

// A product, its calendar, a date, up to 15 maturities by rising key, and the count of numbers given.
#[derive(Clone, Copy)]
pub struct Table {
    pub product: Product,
    pub calendar: Calendar,
    pub date: u16,
    pub maturities: [Maturity; 15],
    pub given: u16,
}

// What a table call gives back: the number of its refusal, 0 where it is accepted, the table, and the counts of months that entered and that left.
#[derive(Clone, Copy)]
pub struct Outcome {
    pub refusal: u8,
    pub table: Table,
    pub entered: u16,
    pub left: u16,
}

// Whether the places hold the fresh listing, all of it in the cover.
fn is_fresh(t: Table) -> bool
    ensures { result ≡ (covered_in t t.calendar t.date && lists_fresh t) }
{
    let p = t.product;
    let kind = p.kind;
    let group = p.group;
    let maturities = t.maturities;
    let l = listing::list(t.calendar, kind, group, t.date);
    if !l.complete {
        return false;
    }
    let fresh = l.maturities;
    table_numbering::are_places_right(maturities, fresh, kind)
}

// What question 10 says of the maturities.
fn is_listing_sound(t: Table) -> bool
    ensures { result ≡ listing_sound t }
{
    if !is_fresh(t) {
        return false;
    }
    let p = t.product;
    let kind = p.kind;
    let maturities = t.maturities;
    if !table_numbering::are_numbers_right(maturities, kind, t.given) {
        return false;
    }
    let n = listing::places_of_kind(kind);
    if t.given < n {
        return false;
    }
    let first = maturities[0];
    t.given - n <= listing::keys_before(kind, t.calendar.cover, first.key)
}

// Question 10.
pub fn is_sound(t: Table) -> bool
    ensures { result ≡ sound t }
{
    if !product::product_right(t.product) {
        return false;
    }
    if !is_calendar_sound(t.calendar) {
        return false;
    }
    if !calendar::in_cover(t.calendar.cover, t.date) {
        return false;
    }
    let p = t.product;
    let kind = p.kind;
    if !listing::is_week_into_cover(kind, t.calendar.cover, t.date) {
        return false;
    }
    is_listing_sound(t)
}

// What question 10 says of the calendar.
pub fn is_calendar_sound(cal: Calendar) -> bool
    ensures { result ≡ calendar_sound cal }
{
    if !calendar::is_valid_cover(cal.cover) {
        return false;
    }
    if !calendar_checks::is_clean(cal) {
        return false;
    }
    calendar_checks::every_week_trades(cal)
}

// Whether a key is listed in the places that are used.
pub fn is_listed(t: Table, key: u16) -> bool
    ensures { result ≡ is_listed (listed_in t) key }
{
    let p = t.product;
    let kind = p.kind;
    let maturities = t.maturities;
    table_numbering::is_listed(maturities, kind, key)
}

// The same table with the number of a question and counts 0 and 0.
pub fn refused(t: Table, number: u8) -> Outcome
    ensures { result ≡ refused_with t number }
{
    Outcome {
        refusal: number,
        table: t,
        entered: 0,
        left: 0,
    }
}

// A table of zeros.
pub fn zero_table() -> Table
    ensures { result ≡ zero_table }
{
    let product = product::zero_product();
    let calendar = calendar::zero_calendar();
    let maturities = listing::unused_places();
    Table {
        product,
        calendar,
        date: 0,
        maturities,
        given: 0,
    }
}

// The table of a product with a fresh listing, numbered 1, 2, ..
fn opened_with(product: Product, calendar: Calendar, date: u16, fresh: [Maturity; 15]) -> Outcome
    ensures { result ≡ opened_with product calendar date (take (places_of_kind product.kind) fresh) }
{
    let kind = product.kind;
    let n = listing::places_of_kind(kind);
    let maturities = table_numbering::number_opened(fresh, kind);
    let table = Table {
        product,
        calendar,
        date,
        maturities,
        given: n,
    };
    Outcome {
        refusal: 0,
        table: table,
        entered: n,
        left: 0,
    }
}

// The table with a calendar, a date and a fresh listing; a month that was there keeps its number.
fn moved_to(t: Table, cal: Calendar, date: u16, fresh: [Maturity; 15]) -> Outcome
    requires { t.given ≤ 60000 }
    ensures { result ≡ moved_to t cal date (take (places_of_kind t.product.kind) fresh) }
{
    let p = t.product;
    let kind = p.kind;
    let old = t.maturities;
    let entered = table_numbering::count_missing(fresh, old, kind);
    let left = table_numbering::count_missing(old, fresh, kind);
    let maturities = table_numbering::renumber(old, fresh, kind, t.given);
    let moved = Table {
        product: p,
        calendar: cal,
        date: date,
        maturities: maturities,
        given: t.given + entered,
    };
    Outcome {
        refusal: 0,
        table: moved,
        entered: entered,
        left: left,
    }
}

// 'Both then hold the fresh listing',
// of the calendar and date that a call leaves, where it is complete (16).
fn relisted(t: Table, cal: Calendar, date: u16) -> Outcome
    requires { t.given ≤ 60000 }
    ensures { result ≡ cond (covered_in t cal date) (moved t cal date) (refused_with t 16) }
{
    let p = t.product;
    let kind = p.kind;
    let group = p.group;
    let l = listing::list(cal, kind, group, date);
    if !l.complete {
        return refused(t, 16);
    }
    let fresh = l.maturities;
    moved_to(t, cal, date, fresh)
}

// Whether the front under a calendar on a date is the key in the first place, which is the front of a sound table.
fn front_stays(t: Table, cal: Calendar, date: u16) -> bool
    ensures { result ≡ eqb (get_or t.maturities 0 unused).key (front (rule_in t cal) cal date) }
{
    let p = t.product;
    let kind = p.kind;
    let group = p.group;
    let maturities = t.maturities;
    let first = maturities[0];
    first.key == listing::front_key(cal, kind, group, date)
}

// The same table with a calendar and a date: no month entered or left.
fn kept(t: Table, cal: Calendar, date: u16) -> Outcome
    ensures { (result ≡ kept_in t cal date) × (length t.maturities ≡ 15) }
{
    let p = t.product;
    let maturities = t.maturities;
    let table = Table {
        product: p,
        calendar: cal,
        date: date,
        maturities: maturities,
        given: t.given,
    };
    Outcome {
        refusal: 0,
        table: table,
        entered: 0,
        left: 0,
    }
}

// Whether no maturity ends on a day.
pub fn none_ends_on(maturities: [Maturity; 15], day: u16) -> bool
    ensures { result ≡ none_ends_on maturities day }
{
    maturities.iter().all(|m| m.day != day)
}

// How many days before a day the nearest trading day lies, by the cover and the lent maps; 7 where none of the six days before it is one.
fn steps_back(cover: Cover, closed: &[u8], day: u16) -> u16
    ensures { result ≡ steps_back (calendar_with cover closed.now) day }
{
    for n in 1..7 {
        if day < n {
            return 7;
        }
        if calendar::is_trading_day_in(cover, closed, day - n) {
            return n;
        }
    }
    7
}

// The same of the days after a day.
fn steps_on(cover: Cover, closed: &[u8], day: u16) -> u16
    ensures { result ≡ steps_on (calendar_with cover closed.now) day }
{
    if 36525 <= day {
        return 7;
    }
    for n in 1..7 {
        if calendar::is_trading_day_in(cover, closed, day + n) {
            return n;
        }
    }
    7
}

// A quick look at the days around a day, by the cover and the lent maps:
// yes where the trading days on its two sides lie at most seven days apart, so that every seven days with the day in them hold one of the two.
pub fn trades_around(cover: Cover, closed: &[u8], day: u16) -> bool
    ensures { result ≡ trades_around (calendar_with cover closed.now) day }
{
    let back = steps_back(cover, closed, day);
    let on = steps_on(cover, closed, day);
    back + on <= 7
}

// Question 15 of a calendar that question 6 accepts: the quick look answers yes, the test of all weeks the rest.
fn keeps_weeks(cal: Calendar, day: u16) -> bool
    ensures { every_week cal ≡ true → result ≡ every_week (close_day cal day) }
{
    let cover = cal.cover;
    if trades_around(cover, &cal.closed, day) {
        return true;
    }
    calendar_checks::trades_with_closed(cal, day)
}

// The table of the product with an id, on a date. The file's verdict by `judge` is at hand, so questions 1 to 8 are not asked again.
pub fn open_in(file: &[u8], judged: FileCalendar, id: [u8; 4], date: u16) -> Outcome
    ensures { result ≡ open_in (calendar_answer judged) file.now id date }
{
    match table_opening::opening_in(file, judged, id, date) {
        Ok(o) => opened_with(o.product, o.calendar, date, o.fresh),
        Err(number) => refused(zero_table(), number),
    }
}

impl Table {
    // The table of the product with an id, on a date. What stood in the table before plays no part.
    pub fn open(self, file: &[u8], id: [u8; 4], date: u16) -> Outcome
        ensures { result ≡ open_call file.now id date }
    {
        let judged = file_load::judge(file);
        open_in(file, judged, id, date)
    }

    // Roll, of a table that is known to be sound: question 10 is not asked again. No sound table has given more than 60,000 numbers.
    pub fn roll_sound(self, date: u16) -> Outcome
        ensures { sound self ≡ true → result ≡ roll_call self date }
    {
        if 60000 < self.given {
            return refused(self, 10);
        }
        if !calendar::in_cover(self.calendar.cover, date) {
            return refused(self, 11);
        }
        if date < self.date {
            return refused(self, 12);
        }
        if front_stays(self, self.calendar, date) {
            return kept(self, self.calendar, date);
        }
        relisted(self, self.calendar, date)
    }

    // Sets the date, a later or equal one.
    pub fn roll(self, date: u16) -> Outcome
        ensures { result ≡ roll_call self date }
    {
        if !is_sound(self) {
            return refused(self, 10);
        }
        self.roll_sound(date)
    }

    // Close, of a table that is known to be sound.
    pub fn close_sound(self, day: u16) -> Outcome
        ensures { sound self ≡ true → result ≡ close_call self day }
    {
        if 60000 < self.given {
            return refused(self, 10);
        }
        if !calendar::in_cover(self.calendar.cover, day) {
            return refused(self, 11);
        }
        if day <= self.date {
            return refused(self, 13);
        }
        if !calendar::is_trading_day(self.calendar, day) {
            return refused(self, 14);
        }
        if !keeps_weeks(self.calendar, day) {
            return refused(self, 15);
        }
        let cal = calendar::close_day(self.calendar, day);
        let maturities = self.maturities;
        if none_ends_on(maturities, day) {
            return kept(self, cal, self.date);
        }
        relisted(self, cal, self.date)
    }

    // Marks one day closed.
    pub fn close(self, day: u16) -> Outcome
        ensures { result ≡ close_call self day }
    {
        if !is_sound(self) {
            return refused(self, 10);
        }
        self.close_sound(day)
    }

    // Opens a closed day again, where the front stays the same.
    pub fn reopen(self, day: u16) -> Outcome
        ensures { result ≡ reopen_call self day }
    {
        if !is_sound(self) {
            return refused(self, 10);
        }
        if !calendar::in_cover(self.calendar.cover, day) {
            return refused(self, 11);
        }
        if day <= self.date {
            return refused(self, 13);
        }
        if !calendar::is_closed_weekday(self.calendar, day) {
            return refused(self, 26);
        }
        let cal = calendar::reopen_day(self.calendar, day);
        if !front_stays(self, cal, self.date) {
            return refused(self, 27);
        }
        relisted(self, cal, self.date)
    }
}
