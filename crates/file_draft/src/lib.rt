// The file of a calendar and a list of records, judged before it is written: questions 3 to 8 and 25.
#![tactic(auto)]

ghost use Rattle.std.specs.Prelude.{◌≡◌, ◌&&◌, ◌+◌, ◌*◌, ◌/◌, ◌%◌, ◌≤◌, ◌<◌, leb, length};
ghost use Rattle.questions.specs.Questions.{first_no};
ghost use Rattle.questions.specs.Refusals.{result_answer};
ghost use Rattle.file_draft.specs.Drafts.{list_record, list_id, blocks_in, write_asks, years_right, counts_right, years_of_map, within_cover, list_right, list_rises};

use calendar::{Calendar, Cover};
use questions::Refusal;

// Question 3, by the years of the cover.
fn years_right(cover: Cover) -> bool
    ensures { result ≡ years_right cover }
{
    let first = cover.first_year;
    let years = cover.years;
    if years == 0 {
        return true;
    }
    if first < 2000 {
        return false;
    }
    if 2100 <= first {
        return false;
    }
    years <= 2100 - first
}

// Question 4, by the counts of years and of bytes.
fn counts_right(cover: Cover, records: &[u8]) -> bool
    ensures { result ≡ counts_right cover records.now }
{
    let years = cover.years;
    (1 <= years) & ((years <= 16) & (1 <= records.len()))
}

// The maps of some years, then zeros.
fn years_of_map(map: [u8; 736], years: u16) -> [u8; 736]
    requires { years ≤ 16 }
    ensures { result ≡ years_of_map years map }
{
    let mut kept = [0u8; 736];
    let n = 46 * (years as usize);
    kept[..n].copy_from_slice(&map[..n]);
    kept
}

// The calendar that the file holds: nothing after the cover's last year.
fn within_cover(cal: Calendar) -> Calendar
    requires { cal.cover.years ≤ 16 }
    ensures { result ≡ within_cover cal }
{
    let cover = cal.cover;
    let years = cover.years;
    let first = cal.closed;
    let second = cal.exchange;
    let closed = years_of_map(first, years);
    let exchange = years_of_map(second, years);
    Calendar {
        cover,
        closed,
        exchange,
    }
}

// A record of the list.
fn list_record(records: &[u8], i: usize) -> &[u8]
    requires { i < length records.now / 32 }
    ensures { result.now ≡ list_record records.now i }
{
    let start = 32 * i;
    let end = start + 32;
    &records[start..end]
}

// Question 7, by the records of the list.
fn list_right(records: &[u8]) -> bool
    ensures { result ≡ list_right records.now }
{
    for i in 0..records.len() / 32 {
        if !file_records::record_right(list_record(records, i)) {
            return false;
        }
    }
    true
}

// The id of a record of the list.
fn list_id(records: &[u8], i: usize) -> file_records::FourBytes
    requires { i < length records.now / 32 }
    ensures { result ≡ list_id records.now i }
{
    file_records::four_at(list_record(records, i), 0)
}

// Question 8, by the ids of neighbours in the list.
fn list_rises(records: &[u8]) -> bool
    ensures { result ≡ list_rises records.now }
{
    for i in 1..records.len() / 32 {
        if !file_ids::id_rises(list_id(records, i - 1), list_id(records, i)) {
            return false;
        }
    }
    true
}

// How many blocks the file has.
pub fn blocks_in(calendar: Calendar, records: &[u8]) -> usize
    ensures { result ≡ blocks_in calendar records.now }
{
    let cover = calendar.cover;
    let full = records.len() / 480;
    let rest = records.len() % 480;
    (cover.years as usize) + full + (rest + 479) / 480
}

// Question 25.
fn has_room(blocks: usize, room: usize) -> bool
    ensures { result ≡ (leb (512 * blocks) room && leb (512 * blocks) 65536) }
{
    if 128 < blocks {
        return false;
    }
    512 * blocks <= room
}

// The first question answered no, where there is one: 3 to 8 of the file, then 25.
pub fn judge(calendar: Calendar, records: &[u8], room: usize) -> Result<(), Refusal>
    ensures { (result_answer tt result).refusal ≡ first_no (write_asks calendar records.now room) }
{
    let cover = calendar.cover;
    if !years_right(cover) {
        return Err(Refusal::WrongHeader);
    }
    if !counts_right(cover, records) {
        return Err(Refusal::WrongBlocks);
    }
    let held = within_cover(calendar);
    if !calendar_checks::is_clean(held) {
        return Err(Refusal::UncleanCalendar);
    }
    if !calendar_checks::every_week_trades(held) {
        return Err(Refusal::IdleWeek);
    }
    if records.len() % 32 != 0 {
        return Err(Refusal::WrongRecord);
    }
    if !list_right(records) {
        return Err(Refusal::WrongRecord);
    }
    if !list_rises(records) {
        return Err(Refusal::IdsNotRising);
    }
    if !has_room(blocks_in(calendar, records), room) {
        return Err(Refusal::NoRoomForFile);
    }
    Ok(())
}
