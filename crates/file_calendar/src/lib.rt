// The calendar blocks of a master file: question 4, and the calendar that they make.
#![tactic(auto)]

ghost use Rattle.std.specs.Prelude.{◌≡◌, ◌&&◌, cond, ◌+◌, ◌≤◌, ◌<◌, eqb, ltb};
ghost use Rattle.questions.specs.Search.{every};
ghost use Rattle.questions.specs.Refusals.{result_answer};
ghost use Rattle.calendar.specs.Trading.{may_close, bits_clean, zero_calendar};
ghost use Rattle.file_blocks.specs.Blocks.{block_count, block_of, number_at, zeros, is_calendar, is_products};
ghost use Rattle.file_calendar.specs.Calendars.{year_count, in_order, order_right, map_bit, day_clean, block_clean, maps_from, calendar_blocks, calendar_of, calendar_answer, refused_file, order_call};

use calendar::{Calendar, Cover};
use file_blocks::Block;
use questions::Refusal;

// A refusal, or 0 and the file's calendar. A program in C keeps it and can hand it in with any number, so the refusal is a number here.
#[repr(C)]
#[derive(Clone, Copy)]
pub struct FileCalendar {
    pub refusal: u8,
    pub calendar: Calendar,
}

// How many calendar blocks the file has.
fn year_count(file: &[u8]) -> usize
    ensures { (result ≡ year_count file.now) × (result ≤ block_count file.now) }
{
    file_blocks::blocks(file)
        .iter()
        .filter(|block| block[0] == 1)
        .count()
}

// Whether block k is of the kind, and of the year, that its place asks for, in a file of so many years from the first on.
fn in_order(block: &Block, k: usize, years: usize, first: usize) -> bool
    requires { (years ≤ 16) × (first < 65536) }
    ensures { result ≡ cond (ltb k years) (is_calendar block.now && eqb (number_at block.now 2) (first + k)) (is_products block.now) }
{
    if k < years {
        return (block[0] == 1) & (file_blocks::number_at(block, 2) == first + k);
    }
    block[0] == 2
}

// The same of every block.
fn all_in_order(file: &[u8], years: usize) -> bool
    requires { (years ≡ year_count file.now) × (years ≤ 16) }
    ensures { result ≡ every (block_count file.now) (in_order file.now) }
{
    let first = file_blocks::number_at(file_blocks::block_at(file, 0), 2);
    file_blocks::blocks(file)
        .iter()
        .enumerate()
        .all(|(k, block)| in_order(block, k, years, first))
}

// Question 4, of a file with its years counted.
fn order_right(file: &[u8], years: usize) -> bool
    requires { years ≡ year_count file.now }
    ensures { result ≡ order_right file.now }
{
    if years < 1 {
        return false;
    }
    if 16 < years {
        return false;
    }
    if file.len() / 512 <= years {
        return false;
    }
    all_in_order(file, years)
}

// Whether day n of the year, from 0, has its bit in the map that begins at a byte of a lent calendar block.
pub fn map_bit(b: &[u8], at: u16, n: u16) -> bool
    ensures { result ≡ map_bit at b.now n }
{
    let byte = file_blocks::byte_at(b, usize::from(at) + usize::from(n / 8));
    (byte >> (7 - n % 8)) % 2 == 1
}

// Question 5, of a day of a year: its bits in the two maps of a lent calendar block.
fn day_clean(b: &[u8], year: u16, n: u16) -> bool
    ensures { result ≡ bits_clean (may_close year n) (map_bit 16 b.now n) (map_bit 62 b.now n) }
{
    if !map_bit(b, 16, n) {
        return !map_bit(b, 62, n);
    }
    calendar_checks::may_close(year, n)
}

// The same of every day.
fn days_clean(b: &[u8]) -> bool
    ensures { result ≡ every 368 (day_clean b.now) }
{
    let year = file_blocks::number_at(b, 2) as u16;
    (0..368).all(|n| day_clean(b, year, n))
}

// Question 5, of a lent calendar block. Of a whole file it is asked of the calendar, eight weeks at a time.
pub fn block_clean(b: &[u8]) -> bool
    ensures { result ≡ block_clean b.now }
{
    days_clean(b) & file_blocks::are_zero(b, 108, 402)
}

// The maps that begin at a byte of the calendar blocks, 46 bytes for each year, then zeros.
fn maps_from(file: &[u8], years: usize, at: usize) -> [u8; 736]
    requires { (years ≤ 16) × (years ≤ block_count file.now) × (at ≤ 466) }
    ensures { result ≡ maps_from at file.now years }
{
    let mut maps = [0u8; 736];
    for i in 0..46 * years {
        maps[i] = file[512 * (i / 46) + (at + i % 46)];
    }
    maps
}

// The calendar of 1 to 16 calendar blocks.
fn calendar_blocks(file: &[u8], years: usize) -> Calendar
    requires { (years ≡ year_count file.now) × (1 ≤ years) × (years ≤ 16) × (years ≤ block_count file.now) }
    ensures { result ≡ calendar_blocks file.now }
{
    let first = file_blocks::number_at(file_blocks::block_at(file, 0), 2);
    let closed = maps_from(file, years, 16);
    let exchange = maps_from(file, years, 62);
    Calendar {
        cover: Cover {
            first_year: first as u16,
            years: years as u16,
        },
        closed,
        exchange,
    }
}

// The file's calendar; no year where it has not 1 to 16 calendar blocks.
pub fn calendar_of(file: &[u8]) -> Calendar
    ensures { result ≡ calendar_of file.now }
{
    let years = year_count(file);
    if (1 <= years) & (years <= 16) {
        return calendar_blocks(file, years);
    }
    calendar::zero_calendar()
}

// The refusal of a file, and no calendar.
pub fn refused_file(number: u8) -> FileCalendar
    ensures { result ≡ refused_file number }
{
    let calendar = calendar::zero_calendar();
    FileCalendar {
        refusal: number,
        calendar,
    }
}

// A file's calendar or its refusal, as the struct for C.
impl From<Result<Calendar, Refusal>> for FileCalendar {
    ghost from_gives = { λ x y. calendar_answer y ≡ result_answer zero_calendar x };

    fn from(judged: Result<Calendar, Refusal>) -> FileCalendar {
        match judged {
            Ok(calendar) => FileCalendar {
                refusal: 0,
                calendar,
            },
            Err(refusal) => refused_file(refusal.number()),
        }
    }
}

// Question 4 and, where it is answered yes, the file's calendar: its years are counted once for both.
pub fn ordered_calendar(file: &[u8]) -> Result<Calendar, Refusal>
    ensures { result_answer zero_calendar result ≡ order_call file.now }
{
    let years = year_count(file);
    if !order_right(file, years) {
        return Err(Refusal::WrongBlocks);
    }
    Ok(calendar_blocks(file, years))
}

// Whether bytes 108 to 509 of the first blocks are zero.
pub fn tails_zero(file: &[u8], years: usize) -> bool
    ensures { result ≡ every years (λ k. zeros (block_of file.now k) 108 402) }
{
    (0..years).all(|k| file_blocks::are_zero(file_blocks::block_at(file, k), 108, 402))
}
