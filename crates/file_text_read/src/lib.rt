// A list taken in line by line: the calendar and the records of a master file, and the file.
#![tactic(auto)]

ghost use Rattle.std.specs.Prelude.{◌≡◌, ◌≤◌, length, take};
ghost use Rattle.file_text_faults.specs.Faults.{no_fault, fault_kept};
ghost use Rattle.file_text_read.specs.Lists.{nothing_taken, close_exchange_day, entry_fits, calendar_after_entry, with_record, records_after, next_line, line_told, EntryIn, idle_day, content_in, RecordsIn, ListLineIn, PartIn, EndIn, composed, composed_file};

use calendar::{Calendar, Cover};
use delivery_items::LongLine;
use file_text_faults::{Fault, Faults};
use file_text_lines::Entry;

// What the lines so far say: whether one says something, the calendar, whether the first of these was an `S`,
// how many bytes of records stand in the buffer, the first lines at fault,
// how many lines were taken, up to the first that is none of a list's, and the number of that one, 0 where there is none.
#[derive(Clone, Copy)]
pub struct ListTaken {
    pub begun: bool,
    pub calendar: Calendar,
    pub seeded: bool,
    pub size: usize,
    pub faults: Faults,
    pub lines: u32,
    pub bad: u32,
}

// What the lines so far say, and the line begun.
#[derive(Clone, Copy)]
pub struct ListProgress {
    pub taken: ListTaken,
    pub line: LongLine,
}

// The number of the first line that is none of a list's, the refusal, the first line at fault, the first day without trading,
// and the file's length, each 0 where there is none.
#[derive(Clone, Copy)]
pub struct Composed {
    pub bad: u32,
    pub refusal: u8,
    pub fault: Fault,
    pub day: u16,
    pub length: usize,
}

// What is said before the first line.
pub fn nothing_taken() -> ListTaken
    ensures { result ≡ nothing_taken }
{
    let calendar = calendar::zero_calendar();
    let faults = file_text_faults::no_faults();
    ListTaken {
        begun: false,
        calendar,
        seeded: false,
        size: 0,
        faults,
        lines: 0,
        bad: 0,
    }
}

// The calendar with a day closed on which payments and deliveries run.
fn close_exchange_day(cal: Calendar, day: u16) -> Calendar
    ensures { result ≡ close_exchange_day cal day }
{
    let cover = cal.cover;
    let first = calendar::close_day(cal, day);
    let closed = first.closed;
    let exchange = cal.exchange;
    let second = calendar::close_day(
        Calendar {
            cover,
            closed: exchange,
            exchange: [0; 736],
        },
        day,
    );
    let marked = second.closed;
    Calendar {
        cover,
        closed,
        exchange: marked,
    }
}

// Whether an entry may stand where a line before it said something or none did, under a cover, where the first of these was an `S` or not.
fn entry_fits(begun: bool, cover: Cover, seeded: bool, e: Entry) -> bool
    ensures { result ≡ entry_fits begun cover seeded e }
{
    let letter = e.letter;
    if letter == 0 {
        return false;
    }
    if (letter == b'Y') | (letter == b'S') {
        return !begun;
    }
    if !begun {
        return false;
    }
    if letter == b'P' {
        return true;
    }
    if seeded {
        return false;
    }
    calendar::in_cover(cover, e.day)
}

// The calendar after an entry.
fn calendar_after(cal: Calendar, e: Entry) -> Calendar
    ensures { result ≡ calendar_after_entry cal e }
{
    let letter = e.letter;
    if letter == b'Y' {
        let cover = e.cover;
        return calendar::open_calendar(cover);
    }
    if letter == b'S' {
        let cover = e.cover;
        return calendar_synthetic::make(e.seed, cover).unwrap_or(calendar::zero_calendar());
    }
    if letter == b'C' {
        return calendar::close_day(cal, e.day);
    }
    if letter == b'X' {
        return close_exchange_day(cal, e.day);
    }
    cal
}

// One record more after those at the start of a buffer, where there is room for it, and how many bytes they are then.
fn store(records: &mut [u8], size: usize, one: file_write::Record) -> usize
    ensures { RecordsIn records.old records.new size result (with_record (length records.old) (take size records.old) one) }
{
    if records.len() < 32 {
        return size;
    }
    if records.len() - 32 < size {
        return size;
    }
    records[size..size + 32].copy_from_slice(&one);
    size + 32
}

// The records after an entry, at the start of a buffer, and how many bytes they are.
fn store_entry(records: &mut [u8], size: usize, e: Entry) -> usize
    ensures { RecordsIn records.old records.new size result (records_after (length records.old) (take size records.old) e) }
{
    if e.letter != b'P' {
        return size;
    }
    let one = e.record;
    store(records, size, one)
}

// The number of the next line.
pub fn next_line(lines: u32) -> u32
    ensures { result ≡ next_line lines }
{
    if lines < 999999999 {
        return lines + 1;
    }
    lines
}

// The state after a line that only counts, with the number of the bad one.
fn count_line(taken: ListTaken, bad: u32) -> ListTaken
    ensures { result ≡ line_told taken bad }
{
    let calendar = taken.calendar;
    let faults = taken.faults;
    ListTaken {
        begun: taken.begun,
        calendar,
        seeded: taken.seeded,
        size: taken.size,
        faults,
        lines: next_line(taken.lines),
        bad,
    }
}

// One line more that says something.
// A product for which the buffer has no room is left out: where the buffer has 60,992 bytes or more, such a list has no file.
fn take_entry(taken: ListTaken, e: Entry, records: &mut [u8]) -> ListTaken
    ensures { EntryIn taken e records.old records.new result }
{
    let calendar = taken.calendar;
    let cover = calendar.cover;
    let lines = next_line(taken.lines);
    if !entry_fits(taken.begun, cover, taken.seeded, e) {
        return count_line(taken, lines);
    }
    let before = taken.faults;
    let faults = file_text_faults::faults_after(before, lines, e);
    let after = calendar_after(calendar, e);
    let size = store_entry(records, taken.size, e);
    ListTaken {
        begun: true,
        calendar: after,
        seeded: taken.seeded | (e.letter == b'S'),
        size,
        faults,
        lines,
        bad: 0,
    }
}

// One line more.
pub fn take_line(taken: ListTaken, line: LongLine, records: &mut [u8]) -> ListTaken
    ensures { ListLineIn taken line records.old records.new result }
{
    if taken.bad != 0 {
        return taken;
    }
    let e = file_text_stripped::held_entry(taken.lines == 0, line);
    if e.letter == b'#' {
        return count_line(taken, 0);
    }
    take_entry(taken, e, records)
}

// The lines that end in a part of the list, and the line begun after them.
pub fn take_part(taken: ListTaken, line: LongLine, part: &[u8], records: &mut [u8]) -> ListProgress
    ensures { PartIn taken line part.now records.old records.new result.taken result.line }
{
    let mut t = taken;
    let mut l = line;
    for byte in part {
        if *byte != b'\n' {
            l = delivery_items::extend_long(l, *byte);
            continue;
        }
        t = take_line(t, l, records);
        l = delivery_items::empty_long_line();
    }
    ListProgress { taken: t, line: l }
}

// A last line that no line feed ends; a line with no bytes is none.
pub fn take_last(taken: ListTaken, line: LongLine, records: &mut [u8]) -> ListTaken
    ensures { EndIn taken line records.old records.new result }
{
    if line.length == 0 {
        return taken;
    }
    take_line(taken, line, records)
}

// How many bytes of a buffer are records.
fn records_size(taken: ListTaken, records: &[u8]) -> usize
    ensures { (result ≤ length records.now) × (take result records.now ≡ take taken.size records.now) }
{
    let size = taken.size;
    if records.len() < size {
        return records.len();
    }
    size
}

// The first day of a run without trading where the refusal is 6, else 0.
fn idle_day(refusal: u8, calendar: Calendar) -> u16
    ensures { result ≡ idle_day refusal calendar }
{
    if refusal == 6 {
        return file_text_faults::first_idle(calendar);
    }
    0
}

// A list with a line that is none of a list's.
fn bad_list(bad: u32) -> Composed
    ensures { result ≡ record { bad = bad; refusal = 0; fault = no_fault; day = 0; length = 0 } }
{
    Composed {
        bad,
        refusal: 0,
        fault: Fault {
            line: 0,
            id: [0, 0, 0, 0],
        },
        day: 0,
        length: 0,
    }
}

// A list whose file is written.
fn written_list(length: usize) -> Composed
    ensures { result ≡ record { bad = 0; refusal = 0; fault = no_fault; day = 0; length = length } }
{
    Composed {
        bad: 0,
        refusal: 0,
        fault: Fault {
            line: 0,
            id: [0, 0, 0, 0],
        },
        day: 0,
        length,
    }
}

// A list whose file is refused, with the first line at fault or the first day without trading.
fn refused_list(faults: Faults, calendar: Calendar, refusal: u8) -> Composed
    ensures { result ≡ record { bad = 0; refusal = refusal; fault = fault_kept faults refusal; day = idle_day refusal calendar; length = 0 } }
{
    let fault = file_text_faults::fault_for(faults, refusal);
    let day = idle_day(refusal, calendar);
    Composed {
        bad: 0,
        refusal,
        fault,
        day,
        length: 0,
    }
}

// The file of what a list says, in a lent buffer.
pub fn compose(taken: ListTaken, records: &[u8], file: &mut [u8]) -> Composed
    ensures { (result ≡ composed (content_in taken records.now) (length file.old)) × (file.new ≡ composed_file (content_in taken records.now) file.old) }
{
    if taken.bad != 0 {
        return bad_list(taken.bad);
    }
    let n = records_size(taken, records);
    let calendar = taken.calendar;
    match file_write::write(calendar, &records[..n], file) {
        Ok(length) => written_list(length),
        Err(refusal) => refused_list(taken.faults, calendar, refusal.number()),
    }
}
