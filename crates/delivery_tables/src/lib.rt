// The table of a product after the notices of two lent lists.
#![tactic(auto)]

ghost use Rattle.std.specs.Prelude.{◌≡◌, not, ◌||◌, ◌+◌, ◌*◌, ◌≤◌, ◌<◌, eqb, length, get_or};
ghost use Rattle.file_calendar.specs.Calendars.{calendar_answer};
ghost use Rattle.table.specs.Table.{open_in, sound};
ghost use Rattle.history.specs.History.{table_call};
ghost use Rattle.history_replay.specs.Replay.{call_of};
ghost use Rattle.file_load.specs.Products.{same_id};
ghost use Rattle.session_apart.specs.Apart.{table_with};
ghost use Rattle.delivery_calls.specs.CallsApart.{CallMade};
ghost use Rattle.delivery_notices.specs.NoticeLists.{notice_at, notices_to};
ghost use Rattle.delivery_tables.specs.Tables.{noticed, NoticesMade, Delivers};

use delivery_calls::MadeApart;
use file_calendar::FileCalendar;
use session_apart::Rest;
use table::Table;

// What a product's notices end with: whether the buffer has room for the refusals, open's refusal, and the table.
#[derive(Clone, Copy)]
pub struct Delivered {
    pub fits: bool,
    pub refusal: u8,
    pub table: Table,
}

// Number i of a list; 0 past its end.
pub fn call_number(list: &[u32], i: usize) -> u32
    ensures { result ≡ get_or list.now i 0 }
{
    if i < list.len() {
        return list[i];
    }
    0
}

// Whether a notice of a kind with an id is a call of a product: a measure, 3, only of the one with its id.
fn concerns(kind: u32, of: [u8; 4], id: [u8; 4]) -> bool
    ensures { result ≡ (not (eqb kind 3) || same_id of id) }
{
    if kind != 3 {
        return true;
    }
    file_load::same_id(of, id)
}

// Call i of a list, on a table apart from its maps, where the answer to question 10 is at hand.
fn call_at(
    file: &[u8],
    judged: FileCalendar,
    rest: Rest,
    ten: bool,
    closed: &mut [u8; 736],
    exchange: &mut [u8; 736],
    calls: &[u32],
    i: u32,
) -> MadeApart
    ensures { ten ≡ sound (table_with rest closed.old exchange.old) → CallMade (table_call (table_with rest closed.old exchange.old) (call_of (get_or calls.now (5 * i + 1) 0) (get_or calls.now (5 * i + 2) 0) (get_or calls.now (5 * i + 3) 0) (get_or calls.now (5 * i + 4) 0))) result closed.new exchange.new }
{
    let at = 5 * (i as usize);
    delivery_calls::call_apart(
        file,
        judged,
        rest,
        ten,
        closed,
        exchange,
        call_number(calls, at + 1),
        call_number(calls, at + 2),
        call_number(calls, at + 3),
        call_number(calls, at + 4),
    )
}

// Notice i on a product's table, apart from its maps; one that is no call of the product changes nothing.
fn notice_at(
    file: &[u8],
    judged: FileCalendar,
    rest: Rest,
    ten: bool,
    id: [u8; 4],
    closed: &mut [u8; 736],
    exchange: &mut [u8; 736],
    calls: &[u32],
    ids: &[u8],
    i: u32,
) -> MadeApart
    ensures { ten ≡ sound (table_with rest closed.old exchange.old) → CallMade (noticed id (table_with rest closed.old exchange.old) (notice_at calls.now ids.now i)) result closed.new exchange.new }
{
    let kind = call_number(calls, 5 * (i as usize) + 1);
    if !concerns(kind, delivery_products::id_in(ids, i), id) {
        return MadeApart { refusal: 0, rest };
    }
    call_at(file, judged, rest, ten, closed, exchange, calls, i)
}

// The first notices of two lists on a product's table, one after the other, with the number of each one's refusal in a lent buffer.
// The maps are apart, so that most notices copy neither; the answer to question 10 stays as it is.
fn run_notices(
    file: &[u8],
    judged: FileCalendar,
    start: Rest,
    ten: bool,
    id: [u8; 4],
    closed: &mut [u8; 736],
    exchange: &mut [u8; 736],
    calls: &[u32],
    ids: &[u8],
    count: u32,
    refusals: &mut [u8],
) -> Rest
    requires { (count ≤ length refusals.old) × (ten ≡ sound (table_with start closed.old exchange.old)) }
    ensures { NoticesMade (table_with start closed.old exchange.old) id (notices_to calls.now ids.now count) refusals.old refusals.new (table_with result closed.new exchange.new) }
{
    let mut rest = start;
    for i in 0..count {
        let o = notice_at(file, judged, rest, ten, id, closed, exchange, calls, ids, i);
        refusals[i as usize] = o.refusal;
        rest = o.rest;
    }
    rest
}

// The same of a whole table: question 10 is asked once.
fn take_notices(
    file: &[u8],
    judged: FileCalendar,
    table: Table,
    id: [u8; 4],
    calls: &[u32],
    ids: &[u8],
    count: u32,
    refusals: &mut [u8],
) -> Table
    requires { count ≤ length refusals.old }
    ensures { NoticesMade table id (notices_to calls.now ids.now count) refusals.old refusals.new result }
{
    let ten = table::is_sound(table);
    let cal = table.calendar;
    let mut closed = cal.closed;
    let mut exchange = cal.exchange;
    let start = session_apart::table_rest(table);
    let rest = run_notices(
        file,
        judged,
        start,
        ten,
        id,
        &mut closed,
        &mut exchange,
        calls,
        ids,
        count,
        refusals,
    );
    session_apart::table_of(rest, closed, exchange)
}

// The table of the product with an id, opened on a date, after the first notices of two lists.
// The file's verdict by `judge` is at hand, so questions 1 to 8 are not asked again.
// The number of each notice's refusal, 0 where it is accepted or is no call of the product, goes to a lent buffer;
// where that has no room for them no notice is taken.
pub fn deliver(
    file: &[u8],
    judged: FileCalendar,
    id: [u8; 4],
    date: u16,
    calls: &[u32],
    ids: &[u8],
    count: u32,
    refusals: &mut [u8],
) -> Delivered
    ensures { Delivers (open_in (calendar_answer judged) file.now) id date (notices_to calls.now ids.now count) refusals.old refusals.new result }
{
    let opened = table::open_in(file, judged, id, date);
    let refusal = opened.refusal;
    let table = opened.table;
    if refusals.len() < count as usize {
        return Delivered {
            fits: false,
            refusal,
            table,
        };
    }
    let after = take_notices(file, judged, table, id, calls, ids, count, refusals);
    Delivered {
        fits: true,
        refusal,
        table: after,
    }
}
