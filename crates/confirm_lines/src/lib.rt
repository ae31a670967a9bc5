// The lines of a vendor's listing, as the program `confirm` reads them, and the names of maturities as it prints them.
#![tactic(auto)]

ghost use Rattle.std.specs.Prelude.{◌≡◌};
ghost use Rattle.session_lines.specs.CommandLines.{command_of};
ghost use Rattle.session_text.specs.TermsText.{last_digit, month_text, day_text};
ghost use Rattle.confirm_lines.specs.ListingLines.{roll_begun, date_in, month_in, entry_from, month_entry, friday_entry, entry_in, no_listing, after_call, after_entry, read_first, read_listing_line};

use product::Kind;
use session_lines::{Command, Line};
use table::{Outcome, Table};

// What a line of a listing says: a key and its last trading day.
#[derive(Clone, Copy)]
pub struct ListingEntry {
    pub key: u16,
    pub day: u16,
}

// The command of a line of any length.
pub fn command_in(bytes: &[u8]) -> Command
    ensures { result ≡ command_of bytes.now }
{
    let line = session_lines::feed(session_lines::empty_line(), bytes);
    session_lines::command_of(line)
}

// A line of `R` and a space.
fn roll_begun() -> Line
    ensures { result ≡ roll_begun }
{
    session_lines::extend(
        session_lines::extend(session_lines::empty_line(), b'R'),
        b' ',
    )
}

// The day of a date; no letter where it is none.
pub fn date_in(bytes: &[u8]) -> Command
    ensures { result ≡ date_in bytes.now }
{
    let line = session_lines::feed(roll_begun(), bytes);
    session_lines::command_of(line)
}

// The first day of a month; no letter where it is none.
pub fn month_in(bytes: &[u8]) -> Command
    ensures { result ≡ month_in bytes.now }
{
    let line = session_lines::feed(roll_begun(), bytes);
    let first = session_lines::extend(
        session_lines::extend(session_lines::extend(line, b'-'), b'0'),
        b'1',
    );
    session_lines::command_of(first)
}

// The key of a name that is there, with the last trading day after it; none where a date is missing.
fn entry_from(name: u8, key: u16, last: Command) -> Option<ListingEntry>
    ensures { result ≡ entry_from name key last }
{
    if (name == 0) | (last.letter == 0) {
        return None;
    }
    Some(ListingEntry { key, day: last.day })
}

// The entry of a line with a month; another line has none.
pub fn month_entry(line: &[u8]) -> Option<ListingEntry>
    ensures { result ≡ month_entry line.now }
{
    if line.len() != 18 {
        return None;
    }
    if line[7] != b' ' {
        return None;
    }
    let name = month_in(&line[..7]);
    let last = date_in(&line[8..18]);
    entry_from(name.letter, days::month_of(name.day), last)
}

// The entry of a line with a weekly maturity's Friday; another line has none.
pub fn friday_entry(line: &[u8]) -> Option<ListingEntry>
    ensures { result ≡ friday_entry line.now }
{
    if line.len() != 21 {
        return None;
    }
    if line[10] != b' ' {
        return None;
    }
    let name = date_in(&line[..10]);
    let last = date_in(&line[11..21]);
    entry_from(name.letter, name.day, last)
}

// The last decimal digit of a number.
fn digit(n: u16) -> u8
    ensures { result ≡ last_digit n }
{
    b'0' + (n % 10) as u8
}

// The characters of a month, 2008-03.
pub type MonthName = [u8; 7];

// The characters of a day, 2008-03-20.
pub type DayName = [u8; 10];

// A month by its number, as `terms` prints it.
pub fn month_name(key: u16) -> MonthName
    ensures { result ≡ month_text key }
{
    let year = 2000 + key / 12;
    let month = key % 12 + 1;
    [
        digit(year / 100 / 10),
        digit(year / 100),
        digit(year % 100 / 10),
        digit(year % 100),
        b'-',
        digit(month / 10),
        digit(month),
    ]
}

// A day by its date, as `terms` prints it.
pub fn day_name(day: u16) -> DayName
    ensures { result ≡ day_text day }
{
    let date = session_text::date_or_zeros(day);
    let year = date.year;
    let month = date.month;
    let in_month = date.day;
    [
        digit(year / 100 / 10),
        digit(year / 100),
        digit(year % 100 / 10),
        digit(year % 100),
        b'-',
        digit(month / 10),
        digit(month),
        b'-',
        digit(in_month / 10),
        digit(in_month),
    ]
}

// What is known of an input after some of its lines: whether the last was bad, the number of a refused call,
// whether an open was called, whether the listing has begun, the table, and the entry of the last line.
#[derive(Clone, Copy)]
pub struct ListingSoFar {
    pub bad: bool,
    pub refusal: u8,
    pub opened: bool,
    pub begun: bool,
    pub table: Table,
    pub entry: Option<ListingEntry>,
}

// Before the first line.
pub fn no_listing() -> ListingSoFar
    ensures { result ≡ no_listing }
{
    let table = table::zero_table();
    ListingSoFar {
        bad: false,
        refusal: 0,
        opened: false,
        begun: false,
        table,
        entry: None,
    }
}

// After a call: a refused one has a number.
fn after_call(o: Outcome) -> ListingSoFar
    ensures { result ≡ after_call o }
{
    let table = o.table;
    ListingSoFar {
        bad: false,
        refusal: o.refusal,
        opened: true,
        begun: false,
        table,
        entry: None,
    }
}

// After a line of the listing; another line is bad.
fn after_entry(s: ListingSoFar, entry: Option<ListingEntry>) -> ListingSoFar
    ensures { result ≡ after_entry s entry }
{
    let table = s.table;
    ListingSoFar {
        bad: entry.is_none(),
        refusal: s.refusal,
        opened: s.opened,
        begun: true,
        table,
        entry,
    }
}

// The entry of a line, of a month or of a Friday.
fn entry_in(kind: Kind, line: &[u8]) -> Option<ListingEntry>
    ensures { result ≡ entry_in kind line.now }
{
    if product::is_weekly(kind) {
        return friday_entry(line);
    }
    month_entry(line)
}

// A line before a table is open: an open, or a bad one.
fn read_first(file: &[u8], s: ListingSoFar, c: Command) -> ListingSoFar
    ensures { result ≡ read_first file.now s c }
{
    if c.letter != b'O' {
        return after_entry(s, None);
    }
    let table = s.table;
    let id = c.id;
    let o = table.open(file, id, c.day);
    after_call(o)
}

// What is known after one line more.
pub fn read_listing_line(file: &[u8], s: ListingSoFar, line: &[u8]) -> ListingSoFar
    ensures { result ≡ read_listing_line file.now s line.now }
{
    let c = command_in(line);
    if !s.opened {
        return read_first(file, s, c);
    }
    let table = s.table;
    if !s.begun & (c.letter == b'R') {
        return after_call(table.roll(c.day));
    }
    if !s.begun & (c.letter == b'C') {
        return after_call(table.close(c.day));
    }
    let p = table.product;
    let kind = p.kind;
    let entry = entry_in(kind, line);
    after_entry(s, entry)
}
