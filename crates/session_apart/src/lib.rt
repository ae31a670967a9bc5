// A table apart from the two maps of its calendar, which are lent, so that a roll and a close that leave the listing as it is copy neither.
#![tactic(auto)]

ghost use Rattle.std.specs.Prelude.{◌≡◌, true, List, ℕ, ◌/◌, ◌<◌, take};
ghost use Rattle.listing.specs.Months.{places_of_kind};
ghost use Rattle.calendar.specs.Trading.{calendar_with, in_cover, slot_of, close_day};
ghost use Rattle.file_calendar.specs.Calendars.{calendar_answer};
ghost use Rattle.table.specs.Table.{sound, kept_in, roll_call, close_call, open_in};
ghost use Rattle.session_lines.specs.CommandLines.{line_command};
ghost use Rattle.session_command.specs.Sessions.{outcome_of, Known};
ghost use Rattle.session_apart.specs.Apart.{table_with, table_rest, kept_with, dated_rest, opened_rest, Moves, Replies};

use calendar::{Calendar, Cover};
use file_calendar::FileCalendar;
use listing::Maturity;
use product::Product;
use session_lines::{Command, Line};
use table::Table;

// A table but for the two maps of its calendar.
#[derive(Clone, Copy)]
pub struct Rest {
    pub product: Product,
    pub cover: Cover,
    pub date: u16,
    pub maturities: [Maturity; 15],
    pub given: u16,
}

// What a call gives back of a table apart: the number of its refusal, the rest, and the counts of months that entered and that left.
#[derive(Clone, Copy)]
pub struct Moved {
    pub refusal: u8,
    pub rest: Rest,
    pub entered: u16,
    pub left: u16,
}

// What is kept after a line but for the maps, the answer to question 10 of its table, the place in the buffer after the line's answer,
// and whether an answer was `NO n` or `BAD`.
#[derive(Clone, Copy)]
pub struct Replied {
    pub opened: bool,
    pub rest: Rest,
    pub ten: bool,
    pub at: usize,
    pub refused: bool,
}

// A table but for its maps.
pub fn table_rest(t: Table) -> Rest
    ensures { result ≡ table_rest t }
{
    let product = t.product;
    let maturities = t.maturities;
    let cal = t.calendar;
    let cover = cal.cover;
    Rest {
        product,
        cover,
        date: t.date,
        maturities,
        given: t.given,
    }
}

// The table of a rest and its maps.
pub fn table_of(rest: Rest, closed: [u8; 736], exchange: [u8; 736]) -> Table
    ensures { result ≡ table_with rest closed exchange }
{
    let product = rest.product;
    let maturities = rest.maturities;
    let cover = rest.cover;
    let calendar = Calendar {
        cover,
        closed,
        exchange,
    };
    Table {
        product,
        calendar,
        date: rest.date,
        maturities,
        given: rest.given,
    }
}

// The same rest on a date, no month entered or left.
fn dated(rest: Rest, date: u16) -> Moved
    ensures { result ≡ dated_rest rest date }
{
    let product = rest.product;
    let maturities = rest.maturities;
    let cover = rest.cover;
    let next = Rest {
        product,
        cover,
        date,
        maturities,
        given: rest.given,
    };
    Moved {
        refusal: 0,
        rest: next,
        entered: 0,
        left: 0,
    }
}

// Whether a command is a roll that leaves the listing of a sound table as it is.
fn rolls_on(ten: bool, letter: u8, rest: Rest, closed: &[u8], date: u16) -> bool
    ensures { result ≡ true → (letter ≡ 82) × (ten ≡ true) × ((exchange : List ℕ) → sound (table_with rest closed.now exchange) ≡ true → roll_call (table_with rest closed.now exchange) date ≡ kept_in (table_with rest closed.now exchange) (table_with rest closed.now exchange).calendar date) }
{
    if letter != b'R' {
        return false;
    }
    if !ten {
        return false;
    }
    let cover = rest.cover;
    if !calendar::in_cover(cover, date) {
        return false;
    }
    if date < rest.date {
        return false;
    }
    let p = rest.product;
    let kind = p.kind;
    let group = p.group;
    let maturities = rest.maturities;
    let first = maturities[0];
    first.key == listing::front_key_in(cover, closed, kind, group, date)
}

// Whether a command is a close that leaves the listing of a sound table as it is.
fn closes_aside(ten: bool, letter: u8, rest: Rest, closed: &[u8], day: u16) -> bool
    ensures { result ≡ true → (letter ≡ 67) × (ten ≡ true) × (in_cover rest.cover day ≡ true) × (slot_of rest.cover day / 8 < 736) × ((exchange : List ℕ) → sound (table_with rest closed.now exchange) ≡ true → close_call (table_with rest closed.now exchange) day ≡ kept_in (table_with rest closed.now exchange) (close_day (table_with rest closed.now exchange).calendar day) rest.date) }
{
    if letter != b'C' {
        return false;
    }
    if !ten {
        return false;
    }
    let cover = rest.cover;
    if !calendar::in_cover(cover, day) {
        return false;
    }
    if day <= rest.date {
        return false;
    }
    if !calendar::is_trading_day_in(cover, closed, day) {
        return false;
    }
    if !table::trades_around(cover, closed, day) {
        return false;
    }
    let slot = calendar::slot_of(cover, day);
    if 736 <= slot / 8 {
        return false;
    }
    let maturities = rest.maturities;
    table::none_ends_on(maturities, day)
}

// Marks a day of the cover closed in a lent map.
fn close_in(cover: Cover, closed: &mut [u8; 736], day: u16)
    requires { (in_cover cover day ≡ true) × (slot_of cover day / 8 < 736) }
    ensures { closed.new ≡ (close_day (calendar_with cover closed.old) day).closed }
{
    let slot = calendar::slot_of(cover, day);
    let at = slot / 8;
    let bit: u8 = 1 << (7 - slot % 8);
    let byte = closed[at];
    closed[at] = byte | bit;
}

// The rest that an open of a product gives, of its fresh listing, numbered 1, 2, ..
fn opened_rest(product: Product, cover: Cover, date: u16, fresh: [Maturity; 15]) -> Moved
    ensures { result ≡ opened_rest product cover date (take (places_of_kind product.kind) fresh) }
{
    let kind = product.kind;
    let n = listing::places_of_kind(kind);
    let maturities = table_numbering::number_opened(fresh, kind);
    let rest = Rest {
        product,
        cover,
        date,
        maturities,
        given: n,
    };
    Moved {
        refusal: 0,
        rest,
        entered: n,
        left: 0,
    }
}

// The table that an open gives, apart, and its maps, which are those of the verdict's calendar. No table is put together.
fn open_apart(
    file: &[u8],
    judged: FileCalendar,
    rest: Rest,
    closed: &mut [u8; 736],
    exchange: &mut [u8; 736],
    id: [u8; 4],
    date: u16,
) -> Moved
    ensures { Moves (table_with rest closed.old exchange.old) (open_in (calendar_answer judged) file.now id date) result closed.new exchange.new }
{
    let l = match table_opening::listed_in(file, judged, id, date) {
        Ok(l) => l,
        Err(refusal) => {
            return Moved {
                refusal,
                rest,
                entered: 0,
                left: 0,
            };
        }
    };
    let cal = judged.calendar;
    let first_map = cal.closed;
    let second_map = cal.exchange;
    *closed = first_map;
    *exchange = second_map;
    let product = l.product;
    let fresh = l.fresh;
    opened_rest(product, cal.cover, date, fresh)
}

// The call of a command on a table that is put together, and its maps afterwards.
fn move_whole(
    file: &[u8],
    judged: FileCalendar,
    rest: Rest,
    ten: bool,
    closed: &mut [u8; 736],
    exchange: &mut [u8; 736],
    c: Command,
) -> Moved
    ensures { ten ≡ sound (table_with rest closed.old exchange.old) → Moves (table_with rest closed.old exchange.old) (outcome_of (open_in (calendar_answer judged) file.now) (table_with rest closed.old exchange.old) c) result closed.new exchange.new }
{
    let first = *closed;
    let second = *exchange;
    let t = table_of(rest, first, second);
    let o = session_command::outcome_known(file, judged, t, ten, c);
    let refusal = o.refusal;
    if refusal != 0 {
        return Moved {
            refusal,
            rest,
            entered: 0,
            left: 0,
        };
    }
    let after = o.table;
    let cal = after.calendar;
    let first_map = cal.closed;
    let second_map = cal.exchange;
    *closed = first_map;
    *exchange = second_map;
    let next = table_rest(after);
    Moved {
        refusal: 0,
        rest: next,
        entered: o.entered,
        left: o.left,
    }
}

// The call of a command on a table apart, where the verdict on the file and the answer to question 10 of the table are at hand.
// A roll and a close that leave the listing as it is copy no map.
pub fn move_apart(
    file: &[u8],
    judged: FileCalendar,
    rest: Rest,
    ten: bool,
    closed: &mut [u8; 736],
    exchange: &mut [u8; 736],
    c: Command,
) -> Moved
    ensures { ten ≡ sound (table_with rest closed.old exchange.old) → Moves (table_with rest closed.old exchange.old) (outcome_of (open_in (calendar_answer judged) file.now) (table_with rest closed.old exchange.old) c) result closed.new exchange.new }
{
    let letter = c.letter;
    let day = c.day;
    if rolls_on(ten, letter, rest, closed, day) {
        return dated(rest, day);
    }
    if closes_aside(ten, letter, rest, closed, day) {
        close_in(rest.cover, closed, day);
        return dated(rest, rest.date);
    }
    if letter == b'O' {
        let id = c.id;
        return open_apart(file, judged, rest, closed, exchange, id, day);
    }
    move_whole(file, judged, rest, ten, closed, exchange, c)
}

// The answer to a line, in a lent buffer from a place on, and what is kept after it, the maps lent.
// Question 10 of the table and what it says of the verdict's calendar are at hand.
pub fn reply(
    file: &[u8],
    judged: FileCalendar,
    right: bool,
    k: Replied,
    closed: &mut [u8; 736],
    exchange: &mut [u8; 736],
    line: Line,
    out: &mut [u8],
) -> Replied
    ensures { Known judged right (table_with k.rest closed.old exchange.old) k.ten → Replies (open_in (calendar_answer judged) file.now) judged right (kept_with k.opened k.rest closed.old exchange.old k.refused) k.at (line_command line) out.old out.new result closed.new exchange.new }
{
    let c = session_lines::command_of(line);
    let rest = k.rest;
    if session_command::is_bad(k.opened, c.letter) {
        let next = session_text::print_bad(out, k.at);
        return Replied {
            opened: k.opened,
            rest,
            ten: k.ten,
            at: next,
            refused: true,
        };
    }
    let m = move_apart(file, judged, rest, k.ten, closed, exchange, c);
    let after = m.rest;
    let refusal = m.refusal;
    if refusal != 0 {
        let next = session_text::print_refusal(out, k.at, refusal);
        return Replied {
            opened: k.opened,
            rest: after,
            ten: k.ten,
            at: next,
            refused: true,
        };
    }
    let product = after.product;
    let kind = product.kind;
    let maturities = after.maturities;
    let next = session_text::print_call(
        out,
        k.at,
        c.letter,
        kind,
        after.date,
        m.entered,
        m.left,
        after.given,
        maturities,
    );
    let still = session_command::leaves_sound(c.letter, right, product);
    Replied {
        opened: true,
        rest: after,
        ten: still,
        at: next,
        refused: k.refused,
    }
}
