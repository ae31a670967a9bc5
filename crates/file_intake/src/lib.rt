// Loading a master file with one block of memory: questions 1 to 8, block by block.
// No function here makes a calendar or reads the table of first days: days are judged on the lent block, years by arithmetic.
#![tactic(auto)]

ghost use Rattle.std.specs.Prelude.{◌≡◌, true, not, ◌&&◌, ◌||◌, cond, ◌+◌, ◌-◌, ◌*◌, ◌≤◌, ◌<◌, eqb, length};
ghost use Rattle.questions.specs.Questions.{first_no};
ghost use Rattle.days.specs.Dates.{year_start};
ghost use Rattle.file_blocks.specs.Blocks.{block_count, block_of, is_calendar, year_of_block, length_right};
ghost use Rattle.file_calendar.specs.Calendars.{block_clean};
ghost use Rattle.file_ids.specs.Ids.{is_record, record_count, id_at, id_rises, ids_rise};
ghost use Rattle.file_load.specs.Load.{load_call, load_answer};
ghost use Rattle.file_intake.specs.Intake.{lower, in_turn, day_trades, days_of, idle_next, idle_through, weeks_go_on, block_asks, with_block, announced_state, announce_call, plausible, may_take, take_call, all_taken, finish_call, finished_answer, finished_with, state_after};

use file_load::{Counts, Loaded};

// What is carried from block to block: seven numbers and an id, 18 bytes.
#[repr(C)]
#[derive(Clone, Copy)]
pub struct Intake {
    // the number of blocks announced, 2 to 128
    pub announced: u16,
    // the blocks taken so far
    pub taken: u16,
    // the lowest of 2 to 8 that a block taken so far answers no, 0 where there is none
    pub lowest: u16,
    // the year of the first block
    pub first_year: u16,
    // the calendar blocks taken so far
    pub years: u16,
    // the days without trading at the end of the last of them, counted up to 7
    pub idle: u16,
    // the records taken so far
    pub records: u16,
    // the id of the last of them
    pub last_id: [u8; 4],
}

// The refusal of an announcement or of a block, 0 where it is accepted, and the state.
#[repr(C)]
#[derive(Clone, Copy)]
pub struct Taken {
    pub refusal: u8,
    pub state: Intake,
}

// The refusal of the final call, 0 for an accepted file, the counts, zeros with a refusal, and the state as it came.
#[repr(C)]
#[derive(Clone, Copy)]
pub struct Finished {
    pub refusal: u8,
    pub counts: Counts,
    pub state: Intake,
}

// The lower of two refusals, 0 standing for none.
fn lower_of(a: u16, b: u16) -> u16
    ensures { result ≡ lower a b }
{
    if a == 0 {
        return b;
    }
    if b == 0 {
        return a;
    }
    if a <= b {
        return a;
    }
    b
}

// The year of the file's first block, once a block of a year is taken.
fn first_year_of(taken: u16, first: u16, year: u16) -> u16
    ensures { result ≡ cond (eqb taken 0) year first }
{
    if taken == 0 {
        return year;
    }
    first
}

// Question 4, of the next block.
fn in_turn(s: Intake, b: &[u8]) -> bool
    requires { s.taken < 128 }
    ensures { result ≡ in_turn s b.now }
{
    let taken = s.taken;
    let kind = file_blocks::byte_at(b, 0);
    if kind != 1 {
        return (1 <= taken) & (kind == 2);
    }
    let year = file_records::field_at(b, 2);
    let first = first_year_of(taken, s.first_year, year);
    (s.years == taken)
        & ((taken < 16)
            & ((taken + 1 < s.announced) & ((year as u32) == (first as u32) + (taken as u32))))
}

// How many days a year has; none where it is not one of 2000 to 2099.
fn days_in(year: u16) -> u16
    ensures { (result ≡ year_start (year + 1) - year_start year) × (year_start year + result ≤ 36525) }
{
    let start = days::year_start(year);
    if 2100 <= year {
        return 0;
    }
    let end = days::year_start(year + 1);
    if end <= start {
        return 0;
    }
    end - start
}

// Whether day n of a lent calendar block's year, from 0, is a Monday to Friday that is not closed.
fn day_trades(b: &[u8], n: u16) -> bool
    requires { year_start (year_of_block b.now) + n ≤ 36525 }
    ensures { result ≡ day_trades b.now n }
{
    let start = days::year_start(file_records::field_at(b, 2));
    if 5 <= days::weekday(start + n) {
        return false;
    }
    !file_calendar::map_bit(b, 16, n)
}

// The days without trading after one day more, counted up to seven.
fn idle_next(trades: bool, idle: u16) -> u16
    requires { idle ≤ 7 }
    ensures { (result ≡ idle_next trades idle) × (result ≤ 7) }
{
    if trades {
        return 0;
    }
    if idle < 7 {
        return idle + 1;
    }
    idle
}

// The same after the year of a lent block; a block of another kind has no days.
fn idle_after(b: &[u8], idle: u16) -> u16
    requires { idle ≤ 7 }
    ensures { result ≡ cond (is_calendar b.now) (idle_through b.now idle (days_of b.now)) idle }
{
    if file_blocks::byte_at(b, 0) != 1 {
        return idle;
    }
    let days = days_in(file_records::field_at(b, 2));
    let mut run = idle;
    for n in 0..days {
        run = idle_next(day_trades(b, n), run);
    }
    run
}

// Question 6, of the next block: no seven days without trading end in its year.
fn weeks_go_on(b: &[u8], idle: u16) -> bool
    requires { idle ≤ 7 }
    ensures { result ≡ (not (is_calendar b.now) || weeks_go_on idle b.now) }
{
    if file_blocks::byte_at(b, 0) != 1 {
        return true;
    }
    let days = days_in(file_records::field_at(b, 2));
    let mut run = idle;
    for n in 0..days {
        run = idle_next(day_trades(b, n), run);
        if 7 <= run {
            return false;
        }
    }
    true
}

// Question 5, of the next block.
fn calendar_clean(b: &[u8]) -> bool
    ensures { result ≡ (not (is_calendar b.now) || block_clean b.now) }
{
    if file_blocks::byte_at(b, 0) != 1 {
        return true;
    }
    file_calendar::block_clean(b)
}

// Question 8, of the next block, after a number of records and the id of the last of them.
fn ids_go_on(records: u16, last: [u8; 4], b: &[u8]) -> bool
    ensures { result ≡ (ids_rise b.now && (eqb records 0 || (not (is_record b.now 0) || id_rises last (id_at b.now 0)))) }
{
    if !file_ids::ids_rise(b) {
        return false;
    }
    if records == 0 {
        return true;
    }
    if !file_ids::is_record(b, 0) {
        return true;
    }
    file_ids::id_rises(last, file_ids::id_at(b, 0))
}

// The number of the first of questions 2 to 8 that the next block answers no, 0 where there is none.
fn block_refusal(s: Intake, b: &[u8]) -> u16
    requires { (s.taken < 128) × (s.idle ≤ 7) × (length b.now ≡ 512) }
    ensures { result ≡ first_no (block_asks s b.now) }
{
    let last = s.last_id;
    if !file_blocks::block_check_right(b) {
        return 2;
    }
    if !file_blocks::block_header_right(b, s.taken as usize) {
        return 3;
    }
    if !in_turn(s, b) {
        return 4;
    }
    if !calendar_clean(b) {
        return 5;
    }
    if !weeks_go_on(b, s.idle) {
        return 6;
    }
    if !file_records::block_records_right(b) {
        return 7;
    }
    if !ids_go_on(s.records, last, b) {
        return 8;
    }
    0
}

// How many calendar blocks a lent block is.
fn calendars_in(b: &[u8]) -> u16
    ensures { (result ≡ cond (is_calendar b.now) 1 0) × (result ≤ 1) }
{
    if file_blocks::byte_at(b, 0) == 1 {
        return 1;
    }
    0
}

// How many records a lent block has.
fn records_in(b: &[u8]) -> u16
    requires { length b.now ≡ 512 }
    ensures { (result ≡ record_count b.now) × (result ≤ 15) }
{
    file_ids::record_count(b) as u16
}

// The id of the last record once a lent block is taken.
fn last_id_of(last: [u8; 4], b: &[u8]) -> file_records::FourBytes
    ensures { result ≡ cond (eqb (record_count b.now) 0) last (id_at b.now (record_count b.now - 1)) }
{
    let n = file_ids::record_count(b);
    if n == 0 {
        return last;
    }
    file_ids::id_at(b, n - 1)
}

// The state with one block more.
fn with_block(s: Intake, b: &[u8]) -> Intake
    requires { (s.taken < 128) × (s.years ≤ s.taken) × (s.idle ≤ 7) × (s.records ≤ 15 * s.taken) × (length b.now ≡ 512) }
    ensures { result ≡ with_block s b.now }
{
    let last = s.last_id;
    let lowest = lower_of(s.lowest, block_refusal(s, b));
    let first_year = first_year_of(s.taken, s.first_year, file_records::field_at(b, 2));
    let years = s.years + calendars_in(b);
    let idle = idle_after(b, s.idle);
    let records = s.records + records_in(b);
    let last_id = last_id_of(last, b);
    Intake {
        announced: s.announced,
        taken: s.taken + 1,
        lowest,
        first_year,
        years,
        idle,
        records,
        last_id,
    }
}

// Whether the numbers of a state are within the bounds of those that these calls leave.
fn is_plausible(s: Intake) -> bool
    ensures { result ≡ plausible s }
{
    (2 <= s.announced)
        & ((s.announced <= 128)
            & ((s.taken <= s.announced)
                & ((s.lowest <= 8)
                    & ((s.years <= s.taken)
                        & ((s.idle <= 7) & ((s.records as u32) <= 15 * (s.taken as u32)))))))
}

// Question 1, of a block that is handed over.
fn may_take(s: Intake, block: &[u8]) -> bool
    ensures { result ≡ may_take s block.now }
{
    is_plausible(s) & ((s.taken < s.announced) & (block.len() == 512))
}

// Question 1, of the final call.
fn all_taken(s: Intake) -> bool
    ensures { result ≡ all_taken s }
{
    is_plausible(s) & (s.taken == s.announced)
}

// An answer of the final call.
fn ended(s: Intake, refusal: u8, years: u16, records: u16) -> Finished
    ensures { result ≡ finished_with s refusal years records }
{
    Finished {
        refusal,
        counts: Counts { years, records },
        state: s,
    }
}

// The state before the first block.
fn started(blocks: u16) -> Intake
    ensures { result ≡ announced_state blocks }
{
    let last_id = [0u8; 4];
    Intake {
        announced: blocks,
        taken: 0,
        lowest: 0,
        first_year: 0,
        years: 0,
        idle: 0,
        records: 0,
        last_id,
    }
}

// Says the number of blocks beforehand: 2 to 128, else the refusal 1.
pub fn announce(blocks: u16) -> Taken
    ensures { result ≡ announce_call blocks }
{
    if (2 <= blocks) & (blocks <= 128) {
        return Taken {
            refusal: 0,
            state: started(blocks),
        };
    }
    Taken {
        refusal: 1,
        state: started(0),
    }
}

impl Intake {
    // Takes the next block. One that is not 512 bytes, or is one too many, gets 1 and leaves the state as it was.
    pub fn take(self, block: &[u8]) -> Taken
        ensures { result ≡ take_call self block.now }
    {
        if !may_take(self, block) {
            return Taken {
                refusal: 1,
                state: self,
            };
        }
        Taken {
            refusal: 0,
            state: with_block(self, block),
        }
    }

    // The result of load; 1 where it is asked for too early.
    pub fn finish(self) -> Finished
        ensures { (finished_answer result ≡ finish_call self) × (result.state ≡ self) }
    {
        if !all_taken(self) {
            return ended(self, 1, 0, 0);
        }
        let lowest = self.lowest;
        if lowest != 0 {
            return ended(self, lowest as u8, 0, 0);
        }
        ended(self, 0, self.years, self.records)
    }
}

// The state once block k of a file is handed over.
fn hand_over(state: Intake, file: &[u8], k: usize) -> Intake
    ensures { result ≡ (take_call state (block_of file.now k)).state }
{
    let next = state.take(file_blocks::block_at(file, k));
    next.state
}

// The state once the blocks of a file are announced and handed over in order.
fn hand_over_all(file: &[u8]) -> Intake
    requires { length_right file.now ≡ true }
    ensures { result ≡ state_after file.now (block_count file.now) (block_count file.now) }
{
    let n = file.len() / 512;
    let first = announce(n as u16);
    let mut state = first.state;
    for k in 0..n {
        state = hand_over(state, file, k);
    }
    state
}

// Load, by these calls: announces the blocks of a file, hands them over and asks for the result.
pub fn load_by_blocks(file: &[u8]) -> Loaded
    ensures { load_answer result ≡ load_call file.now }
{
    if !file_blocks::length_right(file) {
        return Loaded {
            refusal: 1,
            counts: Counts {
                years: 0,
                records: 0,
            },
        };
    }
    let last = hand_over_all(file).finish();
    let counts = last.counts;
    Loaded {
        refusal: last.refusal,
        counts,
    }
}
