// The rows that `reconcile` reads, line by line into lent lists.
#![tactic(auto)]

ghost use Rattle.std.specs.Prelude.{◌≡◌, ◌+◌, ◌*◌, ◌≤◌, ◌<◌, false, not, ◌&&◌, cond, leb, length, set};
ghost use Rattle.questions.specs.Search.{every};
ghost use Rattle.file_load.specs.Products.{same_id};
ghost use Rattle.file_load.specs.Load.{found};
ghost use Rattle.delivery_products.specs.IdList.{id_in};
ghost use Rattle.delivery_receipts.specs.Receipts.{form_fits};
ghost use Rattle.delivery_receipts.specs.Receiving.{full_mark, RowStored, receiving, RowLineIn, PlacesIn, first_unknown};

use delivery_items::{ItemRead, LineRead, LongLine};
use file_load::Found;

// How many good rows there are, whether a line was there that is not empty, how many lines there were,
// whether there was a good row too many, and the number of the last line where it is bad, else 0.
#[derive(Clone, Copy)]
pub struct Receiving {
    pub rows: u32,
    pub begun: bool,
    pub lines: u32,
    pub over: bool,
    pub bad: u32,
}

// Before the first line.
pub fn nothing_received() -> Receiving
    ensures { (result.rows ≡ 0) × (result.begun ≡ false) × (result.lines ≡ 0) × (result.over ≡ false) × (result.bad ≡ 0) }
{
    Receiving {
        rows: 0,
        begun: false,
        lines: 0,
        over: false,
        bad: 0,
    }
}

// Whether the maturity of a row has the form that its product's kind has.
fn form_fits(file: &[u8], item: ItemRead) -> bool
    ensures { result ≡ form_fits file.now item }
{
    let id = item.id;
    let weekly = item.weekly;
    match file_load::find(file, id) {
        Found::At(block, record) => {
            let p = file_load::product_at(file, block, record);
            let kind = p.kind;
            product::is_weekly(kind) == weekly
        }
        Found::Nothing => true,
    }
}

// What is received: so many good rows, whether a line was there that is not empty, so many lines, whether there was a good row too many,
// and the number of the last line where it is bad.
fn received(rows: u32, begun: bool, lines: u32, over: bool, bad: u32) -> Receiving
    ensures { result ≡ record { rows = rows; begun = begun; lines = lines; over = over; bad = bad } }
{
    Receiving {
        rows,
        begun,
        lines,
        over,
        bad,
    }
}

// The state after a line that says this.
fn receive(file: &[u8], s: Receiving, read: LineRead, room: u32) -> Receiving
    requires { room ≤ 65536 }
    ensures { result ≡ receiving room file.now s read }
{
    if s.over {
        return received(s.rows, s.begun, s.lines, s.over, 0);
    }
    let lines = file_text_read::next_line(s.lines);
    if read.empty {
        return received(s.rows, s.begun, lines, false, 0);
    }
    if !s.begun & read.heading {
        return received(s.rows, true, lines, false, 0);
    }
    let item = read.item;
    if !(item.there & form_fits(file, item)) {
        return received(s.rows, true, lines, false, lines);
    }
    if s.rows < room {
        return received(s.rows + 1, true, lines, false, 0);
    }
    received(s.rows, true, lines, true, lines)
}

// How many rows lists of these lengths have room for: 65,536, or none.
fn room_of(ids: usize, keys: usize, days: usize, fulls: usize, numbers: usize, backs: usize) -> u32
    ensures { (result ≤ 65536) × (result ≡ cond (leb 262144 ids && (leb 65536 keys && (leb 65536 days && (leb 65536 fulls && (leb 65536 numbers && leb 65536 backs))))) 65536 0) }
{
    if (262144 <= ids)
        & ((65536 <= keys)
            & ((65536 <= days) & ((65536 <= fulls) & ((65536 <= numbers) & (65536 <= backs)))))
    {
        return 65536;
    }
    0
}

// One for a row of five fields, else 0.
fn full_mark(full: bool) -> u8
    ensures { result ≡ full_mark full }
{
    if full {
        return 1;
    }
    0
}

// A row as row i of six lists.
fn store_row(
    i: usize,
    item: ItemRead,
    ids: &mut [u8],
    keys: &mut [u16],
    days: &mut [u16],
    fulls: &mut [u8],
    numbers: &mut [u16],
    backs: &mut [u16],
)
    requires { (4 * i + 4 ≤ length ids.old) × (i < length keys.old) × (i < length days.old) × (i < length fulls.old) × (i < length numbers.old) × (i < length backs.old) }
    ensures { RowStored i item (record { ids = ids.old; keys = keys.old; days = days.old; fulls = fulls.old; numbers = numbers.old; backs = backs.old }) (record { ids = ids.new; keys = keys.new; days = days.new; fulls = fulls.new; numbers = numbers.new; backs = backs.new }) }
{
    let id = item.id;
    let at = 4 * i;
    ids[at] = id[0];
    ids[at + 1] = id[1];
    ids[at + 2] = id[2];
    ids[at + 3] = id[3];
    keys[i] = item.key;
    days[i] = item.day;
    fulls[i] = full_mark(item.full);
    numbers[i] = item.number;
    backs[i] = item.back;
}

// One line more. A good row goes to the six lists.
pub fn receive_line(
    file: &[u8],
    s: Receiving,
    line: LongLine,
    ids: &mut [u8],
    keys: &mut [u16],
    days: &mut [u16],
    fulls: &mut [u8],
    numbers: &mut [u16],
    backs: &mut [u16],
) -> Receiving
    ensures { RowLineIn file.now s line (record { ids = ids.old; keys = keys.old; days = days.old; fulls = fulls.old; numbers = numbers.old; backs = backs.old }) (record { ids = ids.new; keys = keys.new; days = days.new; fulls = fulls.new; numbers = numbers.new; backs = backs.new }) result }
{
    let room = room_of(
        ids.len(),
        keys.len(),
        days.len(),
        fulls.len(),
        numbers.len(),
        backs.len(),
    );
    let read = delivery_items::read_held(line);
    let after = receive(file, s, read, room);
    if after.rows == s.rows {
        return after;
    }
    let item = read.item;
    let i = s.rows as usize;
    store_row(i, item, ids, keys, days, fulls, numbers, backs);
    after
}

// One place more in a list, where the row there is the product's, and how many there are then.
fn put_place(places: &mut [u16], size: usize, place: u32, is: bool) -> usize
    requires { (size < length places.old) × (place < 65536) }
    ensures { (result ≡ size + cond is 1 0) × (places.new ≡ cond is (set places.old size place) places.old) }
{
    if is {
        places[size] = place as u16;
        return size + 1;
    }
    size
}

// The places of a product's rows among the first n, in their order, at the start of a lent list, and how many there are.
// Without room for n places, or with more than 65,536 rows, none is written.
pub fn places_of(id: [u8; 4], ids: &[u8], n: u32, places: &mut [u16]) -> usize
    ensures { PlacesIn id ids.now n places.old places.new result }
{
    if 65536 < n {
        return 0;
    }
    if places.len() < n as usize {
        return 0;
    }
    let mut size: usize = 0;
    for i in 0..n {
        let own = file_load::same_id(delivery_products::id_in(ids, i), id);
        size = put_place(places, size, i, own);
    }
    size
}

// Whether no row before row i has its id.
fn stands_first(ids: &[u8], i: u32) -> bool
    ensures { result ≡ every i (λ j. not (same_id (id_in ids.now j) (id_in ids.now i))) }
{
    let id = delivery_products::id_in(ids, i);
    for j in 0..i {
        if file_load::same_id(delivery_products::id_in(ids, j), id) {
            return false;
        }
    }
    true
}

// Whether the id of row i is not in the file.
fn is_unknown(file: &[u8], ids: &[u8], i: u32) -> bool
    ensures { result ≡ not (found file.now (id_in ids.now i)) }
{
    match file_load::find(file, delivery_products::id_in(ids, i)) {
        Found::At(_, _) => false,
        Found::Nothing => true,
    }
}

// Whether row i is the first with its id, and the id is not in the file.
pub fn is_first_unknown(file: &[u8], ids: &[u8], i: u32) -> bool
    ensures { result ≡ first_unknown file.now ids.now i }
{
    if !is_unknown(file, ids, i) {
        return false;
    }
    stands_first(ids, i)
}
