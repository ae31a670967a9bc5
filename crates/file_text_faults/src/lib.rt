// Where a master file's text is at fault: the first line for questions 5, 7 and 8, kept line by line, and the first day for 6.
#![tactic(auto)]

ghost use Rattle.std.specs.Prelude.{◌≡◌, ◌+◌, ◌≤◌};
ghost use Rattle.file_records.specs.Records.{four_bytes};
ghost use Rattle.calendar.specs.Trading.{calendar_with, some_trades};
ghost use Rattle.file_text_faults.specs.Faults.{names_weekend, names_wrong, names_earlier, at_fault, id_after, fault_after, no_faults, faults_after, fault_kept, first_idle};

use calendar::{Calendar, Cover};
use file_text_lines::Entry;

// A line at fault: its number, 0 where there is none, and the id of its product, zeros where it names none.
#[derive(Clone, Copy)]
pub struct Fault {
    pub line: u32,
    pub id: [u8; 4],
}

// The id of the last product so far, and the first line at fault for each question.
#[derive(Clone, Copy)]
pub struct Faults {
    pub last: [u8; 4],
    pub five: Fault,
    pub seven: Fault,
    pub eight: Fault,
}

// Whether a line names a Saturday or Sunday.
fn names_weekend(e: Entry) -> bool
    ensures { result ≡ names_weekend e }
{
    let letter = e.letter;
    ((letter == b'C') | (letter == b'X')) & (5 <= days::weekday(e.day))
}

// Whether a line names a product that is not as stated.
fn names_wrong(e: Entry) -> bool
    ensures { result ≡ names_wrong e }
{
    if e.letter != b'P' {
        return false;
    }
    !file_records::record_right(&e.record)
}

// The id of a line's product; zeros where it names none.
fn id_of(e: Entry) -> [u8; 4]
    ensures { result ≡ four_bytes e.«record» 0 }
{
    file_records::four_at(&e.record, 0)
}

// Whether a line names a product whose id is not greater than one.
fn names_earlier(before: [u8; 4], e: Entry) -> bool
    ensures { result ≡ names_earlier before e }
{
    if e.letter != b'P' {
        return false;
    }
    !file_ids::id_rises(before, id_of(e))
}

// Whether a line is at fault for a question.
fn at_fault(question: u8, before: [u8; 4], e: Entry) -> bool
    ensures { result ≡ at_fault question before e }
{
    if question == 5 {
        return names_weekend(e);
    }
    if question == 7 {
        return names_wrong(e);
    }
    if question != 8 {
        return false;
    }
    names_earlier(before, e)
}

// The id of the last product after a line.
fn id_after(before: [u8; 4], e: Entry) -> [u8; 4]
    ensures { result ≡ id_after before e }
{
    if e.letter == b'P' {
        return id_of(e);
    }
    before
}

// The first line at fault for a question after a line more.
fn fault_after(question: u8, fault: Fault, before: [u8; 4], line: u32, e: Entry) -> Fault
    ensures { result ≡ fault_after question fault before line e }
{
    if (fault.line == 0) & at_fault(question, before, e) {
        let id = id_of(e);
        return Fault { line, id };
    }
    fault
}

// Before the first line.
pub fn no_faults() -> Faults
    ensures { result ≡ no_faults }
{
    Faults {
        last: [0, 0, 0, 0],
        five: Fault {
            line: 0,
            id: [0, 0, 0, 0],
        },
        seven: Fault {
            line: 0,
            id: [0, 0, 0, 0],
        },
        eight: Fault {
            line: 0,
            id: [0, 0, 0, 0],
        },
    }
}

// After a line more, with its number.
pub fn faults_after(faults: Faults, line: u32, e: Entry) -> Faults
    ensures { result ≡ faults_after faults line e }
{
    let before = faults.last;
    let first = faults.five;
    let second = faults.seven;
    let third = faults.eight;
    let five = fault_after(5, first, before, line, e);
    let seven = fault_after(7, second, before, line, e);
    let eight = fault_after(8, third, before, line, e);
    let last = id_after(before, e);
    Faults {
        last,
        five,
        seven,
        eight,
    }
}

// The first line at fault for a question.
pub fn fault_for(faults: Faults, question: u8) -> Fault
    ensures { result ≡ fault_kept faults question }
{
    if question == 5 {
        let five = faults.five;
        return five;
    }
    if question == 7 {
        let seven = faults.seven;
        return seven;
    }
    if question == 8 {
        let eight = faults.eight;
        return eight;
    }
    Fault {
        line: 0,
        id: [0, 0, 0, 0],
    }
}

// Whether one of the seven days from a day on is a trading day.
fn some_trades(cover: Cover, closed: &[u8], day: u16) -> bool
    requires { day ≤ 36525 }
    ensures { result ≡ some_trades (calendar_with cover closed.now) day 7 }
{
    for i in 0..7 {
        if calendar::is_trading_day_in(cover, closed, day + i) {
            return true;
        }
    }
    false
}

// The first day of a run of seven without trading, by the cover and the lent map.
fn first_idle_in(cover: Cover, closed: &[u8]) -> u16
    ensures { result ≡ first_idle (calendar_with cover closed.now) }
{
    let end = calendar::cover_end(cover);
    if end < 6 {
        return 36525;
    }
    for day in calendar::cover_start(cover)..end - 6 {
        if !some_trades(cover, closed, day) {
            return day;
        }
    }
    36525
}

// The first day of a run of seven without trading; 36,525 where there is none.
pub fn first_idle(cal: Calendar) -> u16
    ensures { result ≡ first_idle cal }
{
    let cover = cal.cover;
    first_idle_in(cover, &cal.closed)
}
