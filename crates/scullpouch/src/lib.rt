// The calls for programs in other languages, as functions of a library: `scullpouch_c` exports each by C's calling convention, structs by value,
// and lent bytes as a pointer and a length.
// Nothing is kept between calls. A refused call gives back the table, the queue or the state as it came.
#![tactic(auto)]

ghost use Rattle.std.specs.Prelude.{◌≡◌, cond, [], length};
ghost use Rattle.days.specs.Dates.{day_call, date_call};
ghost use Rattle.file_calendar.specs.Calendars.{calendar_answer};
ghost use Rattle.file_load.specs.Load.{load_answer, load_call, judge_call};
ghost use Rattle.table.specs.Table.{open_call, open_in, roll_call, close_call, reopen_call};
ghost use Rattle.table_values.specs.Values.{day_reply, last_day_reply, last_day_call, due_call};
ghost use Rattle.table_prices.specs.TablePrices.{cash_reply, tick_call, cash_call};
ghost use Rattle.file_write.specs.Writing.{write_call, buffer_after};
ghost use Rattle.file_intake.specs.Intake.{announce_call, take_call, finish_call, finished_answer};
ghost use Rattle.rounds.specs.Rounds.{queue_of, handle_call, join_call, leave_call};
ghost use Rattle.calendar_synthetic.specs.Generated.{made_call};
ghost use Rattle.table_measures.specs.Measures.{measure_call};
ghost use Rattle.table_vendor.specs.Vendor.{vendor_call};
ghost use Rattle.session_lines.specs.CommandLines.{empty_line, fed};
ghost use Rattle.delivery_products.specs.ProductsByPlace.{place_call};
ghost use Rattle.delivery_notices.specs.NoticeLists.{notices_to};
ghost use Rattle.delivery_rows.specs.Delivery.{delivery_heading};
ghost use Rattle.delivery_refusals.specs.Refusals.{refusal_line, unknown_line};
ghost use Rattle.delivery_products.specs.IdList.{id_in};
ghost use Rattle.delivery_receipts.specs.Receiving.{received_to, first_unknown};
ghost use Rattle.delivery_reports.specs.Reports.{unknown_text, differences_heading};
ghost use Rattle.c_differences.specs.Found.{ReceivedIn, DifferencesIn};
ghost use Rattle.c_delivery.specs.Delivered.{product_reply, NoticesIn, DeliveredIn, RowsWritten, text_line};
ghost use Rattle.c_types.specs.Flat.{made_answer, written_reply, unflat_table, flat_outcome, outcome_on, measured_on, date_reply, verdict_reply, record_flat};

use c_delivery::{FlatDelivered, Notices, ProductReply, TextLine, TextReply};
use c_differences::{FlatReceipt, FoundLines};
use c_types::{
    DateReply, FlatMeasured, FlatOutcome, FlatProduct, FlatRecord, FlatTable, Id, Made,
    VerdictReply, WrittenFile,
};
use calendar::{Calendar, Cover};
use file_calendar::FileCalendar;
use file_intake::{Finished, Intake, Taken};
use file_load::Loaded;
use rounds::{Changed, Handled, Queue};
use table_prices::CashReply;
use table_values::{DayReply, LastDayReply};

// The number of this interface: it changes when a struct, a function or the meaning of an answer does.
pub fn scullpouch_interface() -> u32
    ensures { result ≡ 2 }
{
    2
}

// The day number of a date.
pub fn scullpouch_day(year: u16, month: u16, day: u16) -> DayReply
    ensures { day_reply result ≡ day_call year month day }
{
    c_types::reply_of_day(days::day_of_date(year, month, day))
}

// The date of a day number.
pub fn scullpouch_date(day: u16) -> DateReply
    ensures { date_reply result ≡ date_call day }
{
    c_types::reply_of_date(days::date_of_day(day))
}

// Judges a master file: questions 1 to 8.
pub fn scullpouch_load(file: &[u8]) -> Loaded
    ensures { load_answer result ≡ load_call file.now }
{
    file_load::load(file)
}

// Opens a table. Refused, the table is all zeros.
pub fn scullpouch_open(file: &[u8], id: Id, date: u16) -> FlatOutcome
    ensures { result ≡ flat_outcome (open_call file.now id.bytes date) }
{
    let bytes = id.bytes;
    let table = table::zero_table();
    c_types::flat_outcome(table.open(file, bytes, date))
}

// Judges a master file for the opens that follow: questions 1 to 8, and its calendar.
pub fn scullpouch_judge_file(file: &[u8]) -> FileCalendar
    ensures { calendar_answer result ≡ judge_call file.now }
{
    file_load::judge(file)
}

// Opens a table by what was said of a file. Said of this file, it is the open above.
pub fn scullpouch_open_in(judged: FileCalendar, file: &[u8], id: Id, date: u16) -> FlatOutcome
    ensures { result ≡ flat_outcome (open_in (calendar_answer judged) file.now id.bytes date) }
{
    let bytes = id.bytes;
    c_types::flat_outcome(table::open_in(file, judged, bytes, date))
}

// Rolls a table to a date.
pub fn scullpouch_roll(t: FlatTable, date: u16) -> FlatOutcome
    ensures { result ≡ outcome_on t (roll_call (unflat_table t) date) }
{
    let table = c_types::unflat_table(t);
    c_types::outcome_on(t, table.roll(date))
}

// Closes a day.
pub fn scullpouch_close(t: FlatTable, day: u16) -> FlatOutcome
    ensures { result ≡ outcome_on t (close_call (unflat_table t) day) }
{
    let table = c_types::unflat_table(t);
    c_types::outcome_on(t, table.close(day))
}

// Opens a closed day again.
pub fn scullpouch_reopen(t: FlatTable, day: u16) -> FlatOutcome
    ensures { result ≡ outcome_on t (reopen_call (unflat_table t) day) }
{
    let table = c_types::unflat_table(t);
    c_types::outcome_on(t, table.reopen(day))
}

// A capital measure on a future, p for q: from the settlement price before it the one after it.
pub fn scullpouch_measure(t: FlatTable, p: u16, q: u16, price: u32) -> FlatMeasured
    ensures { result ≡ measured_on t (measure_call (unflat_table t) p q price) }
{
    let table = c_types::unflat_table(t);
    c_types::measured_on(t, table_measures::measure(table, p, q, price))
}

// The last trading day of a listed maturity, by its key.
pub fn scullpouch_last_trading_day(t: FlatTable, key: u16) -> LastDayReply
    ensures { last_day_reply result ≡ last_day_call (unflat_table t) key }
{
    table_values::last_trading_day(c_types::unflat_table(t), key)
}

// The due day of a day of the cover.
pub fn scullpouch_due(t: FlatTable, day: u16) -> DayReply
    ensures { day_reply result ≡ due_call (unflat_table t) day }
{
    table_values::due(c_types::unflat_table(t), day)
}

// 0 where a price passes, else the refusal.
pub fn scullpouch_tick(t: FlatTable, price: u32) -> u8
    ensures { result ≡ tick_call (unflat_table t) price }
{
    table_prices::tick(c_types::unflat_table(t), price)
}

// The cash of a future.
pub fn scullpouch_cash(t: FlatTable, contracts: u32, agreed: u32, final_price: u32) -> CashReply
    ensures { cash_reply result ≡ cash_call (unflat_table t) contracts agreed final_price }
{
    table_prices::cash(c_types::unflat_table(t), contracts, agreed, final_price)
}

// Writes a master file into a lent buffer. Refused, nothing is written.
pub fn scullpouch_write(calendar: Calendar, records: &[u8], buffer: &mut [u8]) -> WrittenFile
    ensures { (written_reply result ≡ write_call calendar records.now (length buffer.old)) × (buffer.new ≡ buffer_after calendar records.now buffer.old) }
{
    c_types::reply_of_writing(file_write::write(calendar, records, buffer))
}

// The record of a product.
pub fn scullpouch_record(p: FlatProduct) -> FlatRecord
    ensures { result.bytes ≡ record_flat p }
{
    c_types::flat_record(p)
}

// Begins a load by blocks, of so many blocks.
pub fn scullpouch_announce(blocks: u16) -> Taken
    ensures { result ≡ announce_call blocks }
{
    file_intake::announce(blocks)
}

// Takes the next block.
pub fn scullpouch_take(state: Intake, block: &[u8]) -> Taken
    ensures { result ≡ take_call state block.now }
{
    state.take(block)
}

// The result of the load.
pub fn scullpouch_finish(state: Intake) -> Finished
    ensures { (finished_answer result ≡ finish_call state) × (result.state ≡ state) }
{
    state.finish()
}

// Whether a list, key and day in turn, is the table's fresh listing; else the smallest key that differs.
pub fn scullpouch_judge(t: FlatTable, list: &[u16]) -> VerdictReply
    ensures { verdict_reply result ≡ vendor_call (unflat_table t) list.now }
{
    c_types::reply_of_verdict(table_vendor::judge(c_types::unflat_table(t), list))
}

// A queue with no table.
pub fn scullpouch_queue() -> Queue
    ensures { result ≡ queue_of [] }
{
    Queue::empty()
}

// A call of the morning round: takes the first b tables, or all if fewer, and puts them at the end.
pub fn scullpouch_handle(queue: Queue, b: u16) -> Handled
    ensures { result ≡ handle_call queue b }
{
    Handled::for_c(queue, queue.handle(b))
}

// Puts a table at the end of the queue.
pub fn scullpouch_join(queue: Queue, table: u16) -> Changed
    ensures { result ≡ join_call queue table }
{
    Changed::for_c(queue, queue.join(table))
}

// Takes a table out of the queue.
pub fn scullpouch_leave(queue: Queue, table: u16) -> Changed
    ensures { result ≡ leave_call queue table }
{
    Changed::for_c(queue, queue.leave(table))
}

// The made-up calendar of a seed, for load tests.
pub fn scullpouch_make(seed: u32, cover: Cover) -> Made
    ensures { made_answer result ≡ made_call seed cover }
{
    c_types::reply_of_made(calendar_synthetic::make(seed, cover))
}

// The product at a place of a master file: questions 1 to 8, and 9 of the place.
pub fn scullpouch_product_at(file: &[u8], place: usize) -> ProductReply
    ensures { result ≡ product_reply (place_call file.now place) }
{
    c_delivery::product_at(file, place)
}

// Reads a text of notices into two lent lists.
pub fn scullpouch_read_notices(text: &[u8], calls: &mut [u32], ids: &mut [u8]) -> Notices
    ensures { NoticesIn text.now calls.old calls.new ids.old ids.new result }
{
    c_delivery::read_notices(text, calls, ids)
}

// The table of a product after the notices, by what was said of the file, and the number of each notice's refusal.
pub fn scullpouch_deliver(
    judged: FileCalendar,
    file: &[u8],
    notices: Notices,
    calls: &[u32],
    ids: &[u8],
    id: Id,
    refusals: &mut [u8],
) -> FlatDelivered
    ensures { DeliveredIn (open_in (calendar_answer judged) file.now) id.bytes notices (notices_to calls.now ids.now notices.count) refusals.old refusals.new result }
{
    c_delivery::deliver(file, judged, notices, calls, ids, id, refusals)
}

// The rows of a table.
pub fn scullpouch_rows(t: FlatTable, buffer: &mut [u8]) -> TextReply
    ensures { RowsWritten (unflat_table t) buffer.old buffer.new result }
{
    c_delivery::rows(t, buffer)
}

// The heading of the rows.
pub fn scullpouch_rows_heading() -> TextLine
    ensures { result ≡ text_line (fed empty_line delivery_heading) }
{
    c_delivery::rows_heading()
}

// Line i of a product's refused calls: 0 is that of the opening, and i that of notice i - 1.
pub fn scullpouch_refused_call(
    id: Id,
    notices: Notices,
    refusal: u8,
    calls: &[u32],
    refusals: &[u8],
    i: u32,
) -> TextLine
    ensures { result ≡ text_line (fed empty_line (refusal_line id.bytes notices.opened refusal calls.now refusals.now i)) }
{
    c_delivery::refused_call(id, notices, refusal, calls, refusals, i)
}

// Line i of the measures of ids that the file has not.
pub fn scullpouch_unknown_measure(file: &[u8], calls: &[u32], ids: &[u8], i: u32) -> TextLine
    ensures { result ≡ text_line (fed empty_line (unknown_line file.now calls.now ids.now i)) }
{
    c_delivery::unknown_measure(file, calls, ids, i)
}

// Takes the next line of a text of rows into six lent lists.
pub fn scullpouch_receive(
    state: FlatReceipt,
    file: &[u8],
    text: &[u8],
    ids: &mut [u8],
    keys: &mut [u16],
    days: &mut [u16],
    fulls: &mut [u8],
    numbers: &mut [u16],
    backs: &mut [u16],
) -> FlatReceipt
    ensures { ReceivedIn file.now state text.now (record { ids = ids.old; keys = keys.old; days = days.old; fulls = fulls.old; numbers = numbers.old; backs = backs.old }) (record { ids = ids.new; keys = keys.new; days = days.new; fulls = fulls.new; numbers = numbers.new; backs = backs.new }) result }
{
    c_differences::receive(file, state, text, ids, keys, days, fulls, numbers, backs)
}

// The lines of one product's differences, from a key on.
pub fn scullpouch_differences(
    product: FlatProduct,
    delivered: FlatDelivered,
    rows: u32,
    ids: &[u8],
    keys: &[u16],
    days: &[u16],
    fulls: &[u8],
    numbers: &[u16],
    backs: &[u16],
    places: &mut [u16],
    from: u32,
    buffer: &mut [u8],
) -> FoundLines
    ensures { DifferencesIn product delivered (received_to (record { ids = ids.now; keys = keys.now; days = days.now; fulls = fulls.now; numbers = numbers.now; backs = backs.now }) rows) rows from places.old places.new buffer.old buffer.new result }
{
    c_differences::differences(
        product, delivered, rows, ids, keys, days, fulls, numbers, backs, places, from, buffer,
    )
}

// The heading of the differences.
pub fn scullpouch_differences_heading() -> TextLine
    ensures { result ≡ text_line (fed empty_line differences_heading) }
{
    c_differences::differences_heading()
}

// The line of row i where it is the first with its id, and the file has no such id.
pub fn scullpouch_unknown_product(file: &[u8], ids: &[u8], i: u32) -> TextLine
    ensures { result ≡ text_line (fed empty_line (cond (first_unknown file.now ids.now i) (unknown_text (id_in ids.now i)) [])) }
{
    c_differences::unknown_product(file, ids, i)
}
