// The master file: questions 1 to 9, and the products that it holds.
#![tactic(auto)]

ghost use Rattle.std.specs.Prelude.{◌≡◌, true, ◌+◌, ◌*◌, ◌≤◌, ◌<◌};
ghost use Rattle.questions.specs.Refusals.{result_answer};
ghost use Rattle.calendar.specs.Trading.{zero_calendar};
ghost use Rattle.file_blocks.specs.Blocks.{block_count};
ghost use Rattle.file_calendar.specs.Calendars.{order_right, calendar_of, calendar_answer, calendars_clean};
ghost use Rattle.file_load.specs.Products.{same_id, product_from, product_at};
ghost use Rattle.file_load.specs.Load.{judge_call, load_call, load_answer, has_id, place_from, place_of, found_at, find_call, find_answer};
ghost use Rattle.file_load.specs.Halves.{begins_by, stepped, block_by_halves, find_from};

use calendar::Calendar;
use file_calendar::FileCalendar;
use product::{Kind, Product};
use questions::Refusal;

// The counts of years and of records.
#[repr(C)]
#[derive(Clone, Copy)]
pub struct Counts {
    pub years: u16,
    pub records: u16,
}

// The refusal, 0 for an accepted file, and the counts, zeros with a refusal.
#[repr(C)]
#[derive(Clone, Copy)]
pub struct Loaded {
    pub refusal: u8,
    pub counts: Counts,
}

// A record's block and its number in the block.
#[derive(Clone, Copy)]
pub struct Place {
    pub block: usize,
    pub record: usize,
}

// A walk over the records of a lent file: the file with a block and a record number.
#[derive(Clone, Copy)]
struct Reader<'a> {
    file: &'a [u8],
    block: usize,
    record: usize,
}

// The block and the number of a record, or the refusal 9.
#[derive(Clone, Copy)]
pub enum Found {
    At(usize, usize),
    Nothing,
}

// Question 5, of a file that 4 accepts and its calendar: the calendar is clean, and what follows the maps is zero.
fn calendars_clean(file: &[u8], cal: Calendar) -> bool
    requires { (order_right file.now ≡ true) × (cal ≡ calendar_of file.now) }
    ensures { result ≡ calendars_clean file.now }
{
    calendar_checks::is_clean(cal) & file_calendar::tails_zero(file, cal.cover.years as usize)
}

// Questions 1 to 8, and the file's calendar, which is made once, for 5 and 6 and for what follows.
fn judged(file: &[u8]) -> Result<Calendar, Refusal>
    ensures { result_answer zero_calendar result ≡ judge_call file.now }
{
    if !file_blocks::length_right(file) {
        return Err(Refusal::WrongLength);
    }
    if !file_blocks::checks_right(file) {
        return Err(Refusal::WrongCheck);
    }
    if !file_blocks::headers_right(file) {
        return Err(Refusal::WrongHeader);
    }
    let cal = file_calendar::ordered_calendar(file)?;
    if !calendars_clean(file, cal) {
        return Err(Refusal::UncleanCalendar);
    }
    if !calendar_checks::every_week_trades(cal) {
        return Err(Refusal::IdleWeek);
    }
    if !file_records::products_right(file) {
        return Err(Refusal::WrongRecord);
    }
    if !file_ids::ids_rise(file) {
        return Err(Refusal::IdsNotRising);
    }
    Ok(cal)
}

// The same, as the struct for C.
pub fn judge(file: &[u8]) -> FileCalendar
    ensures { calendar_answer result ≡ judge_call file.now }
{
    judged(file).into()
}

// Questions 1 to 8, and the counts of years and of records.
pub fn load(file: &[u8]) -> Loaded
    ensures { load_answer result ≡ load_call file.now }
{
    let judged = judge(file);
    let refusal = judged.refusal;
    if refusal != 0 {
        return Loaded {
            refusal,
            counts: Counts {
                years: 0,
                records: 0,
            },
        };
    }
    Loaded {
        refusal: 0,
        counts: Counts {
            years: judged.calendar.cover.years,
            records: file_ids::record_count(file) as u16,
        },
    }
}

// The product that a record's bytes say.
fn product_from(r: &[u8]) -> Product
    ensures { result ≡ product_from r.now }
{
    let id = file_records::four_at(r, 0);
    let group = file_records::four_at(r, 4);
    let market = file_records::four_at(r, 8);
    let kind = product::kind_or_future(Kind::try_from(file_blocks::byte_at(r, 12)));
    let size = file_records::size_at(r);
    let tick = file_records::field_at(r, 15);
    let currency = file_records::three_at(r, 17);
    Product {
        id,
        group,
        market,
        kind,
        size,
        tick,
        currency,
    }
}

// The product of record k of block n; all zeros where the file has no such place.
pub fn product_at(file: &[u8], n: usize, k: usize) -> Product
    ensures { result ≡ product_at file.now n k }
{
    product_from(file_records::record_at(file, n, k))
}

// Whether two ids are the same.
pub fn same_id(a: [u8; 4], b: [u8; 4]) -> bool
    ensures { result ≡ same_id a b }
{
    a == b
}

// Whether a place holds the record with an id.
fn has_id(file: &[u8], p: usize, id: [u8; 4]) -> bool
    ensures { result ≡ has_id file.now id p }
{
    file_ids::is_record(file, p) & same_id(file_ids::id_at(file, p), id)
}

// The place of the first record with an id, from a place on; the block after the last where there is none.
fn seek_at(file: &[u8], block: usize, record: usize, id: [u8; 4]) -> Place
    requires { (block ≤ block_count file.now) × («record» < 15) }
    ensures { result ≡ place_of (place_from file.now id (15 * block + «record»)) }
{
    let places = 15 * (file.len() / 512);
    let first = 15 * block + record;
    for p in first..places {
        if has_id(file, p, id) {
            return Place {
                block: p / 15,
                record: p % 15,
            };
        }
    }
    Place {
        block: file.len() / 512,
        record: 0,
    }
}

// The place, where it is one of the file.
fn found_at(file: &[u8], block: usize, record: usize) -> Found
    ensures { result ≡ found_at file.now block «record» }
{
    if block < file.len() / 512 {
        return Found::At(block, record);
    }
    Found::Nothing
}

// The walk at the first place of a block.
fn at_block<'a>(file: &'a [u8], block: usize) -> Reader<'a>
    ensures { (result.file ≡ file.entry) × (result.block ≡ block) × (result.«record» ≡ 0) }
{
    Reader {
        file,
        block,
        record: 0,
    }
}

// The walk at the next record with an id, or after the last block.
fn seek<'a>(reader: Reader<'a>, id: [u8; 4]) -> Reader<'a>
    requires { (reader.block ≤ block_count reader.file.now) × (reader.«record» < 15) }
    ensures { (result.file ≡ reader.entry.file) × (result.block ≡ (place_of (place_from reader.entry.file.now id (15 * reader.entry.block + reader.entry.«record»))).block) × (result.«record» ≡ (place_of (place_from reader.entry.file.now id (15 * reader.entry.block + reader.entry.«record»))).«record») }
{
    let place = seek_at(reader.file, reader.block, reader.record, id);
    Reader {
        file: reader.file,
        block: place.block,
        record: place.record,
    }
}

// What the walk is at.
fn here<'a>(reader: Reader<'a>) -> Found
    ensures { result ≡ found_at reader.entry.file.now reader.entry.block reader.entry.«record» }
{
    found_at(reader.file, reader.block, reader.record)
}

// What a walk from a block on finds.
fn find_from(file: &[u8], block: usize, id: [u8; 4]) -> Found
    requires { block ≤ block_count file.now }
    ensures { find_answer result ≡ find_from file.now id (15 * block) }
{
    here(seek(at_block(file, block), id))
}

// Question 9: the place of the record with an id, given as a record's four bytes.
pub fn find(file: &[u8], id: [u8; 4]) -> Found
    ensures { find_answer result ≡ find_call file.now id }
{
    find_from(file, 0, id)
}

// Whether a file has a block that begins with no record, or with an id that is not after another.
fn begins_by(file: &[u8], block: usize, id: [u8; 4]) -> bool
    ensures { result ≡ begins_by file.now id block }
{
    if file.len() / 512 <= block {
        return false;
    }
    if !file_ids::is_record(file, 15 * block) {
        return true;
    }
    !file_ids::id_rises(id, file_ids::id_at(file, 15 * block))
}

// A step of so many blocks on, where the block that it leads to begins by an id.
fn step(file: &[u8], block: usize, width: usize, id: [u8; 4]) -> usize
    requires { (block ≤ block_count file.now) × (width ≤ 64) }
    ensures { (result ≡ stepped (begins_by file.now id) width block) × (result ≤ block_count file.now) }
{
    let next = block + width;
    if begins_by(file, next, id) {
        return next;
    }
    block
}

// The block from which a record with an id is looked for, by halves: steps of 64, 32, .., 1 blocks.
fn block_by_halves(file: &[u8], id: [u8; 4]) -> usize
    ensures { (result ≡ block_by_halves file.now id) × (result ≤ block_count file.now) }
{
    let mut block: usize = 0;
    for width in [64usize, 32, 16, 8, 4, 2, 1] {
        block = step(file, block, width, id);
    }
    block
}

// Question 9 by halves, for a file that load accepts: the walk begins at the block that the ids at the starts of blocks say. For such a file this is `find`.
pub fn find_rising(file: &[u8], id: [u8; 4]) -> Found
    ensures { find_answer result ≡ find_from file.now id (15 * block_by_halves file.now id) }
{
    find_from(file, block_by_halves(file, id), id)
}
