// The calls of a delivery as programs in other languages make them: `#[repr(C)]` structs of numbers, and lent lists and buffers.
#![tactic(auto)]

ghost use Rattle.std.specs.Prelude.{◌≡◌, false};
ghost use Rattle.session_lines.specs.CommandLines.{empty_line, fed};
ghost use Rattle.file_calendar.specs.Calendars.{calendar_answer};
ghost use Rattle.table.specs.Table.{open_in};
ghost use Rattle.delivery_products.specs.ProductsByPlace.{place_call};
ghost use Rattle.delivery_notices.specs.NoticeLists.{notices_to};
ghost use Rattle.delivery_rows.specs.Delivery.{delivery_heading};
ghost use Rattle.delivery_refusals.specs.Refusals.{refusal_line, unknown_line};
ghost use Rattle.c_types.specs.Flat.{unflat_table};
ghost use Rattle.c_delivery.specs.Delivered.{product_reply, no_notices, notices_of, NoticesIn, ready, not_delivered, DeliveredIn, RowsWritten, text_line};

use c_types::{FlatProduct, FlatTable, Id};
use delivery_notices::NoticesTaken;
use file_calendar::FileCalendar;
use session_lines::Line;

// The number of a refusal, or 0 and a product.
#[repr(C)]
#[derive(Clone, Copy)]
pub struct ProductReply {
    pub refusal: u8,
    pub product: FlatProduct,
}

// What a text of notices says: whether the lists had room, the day of the opening, the number of its line,
// how many notices stand in the lists, and the number of the first bad line, 0 where there is none. With a bad line the others are 0.
#[repr(C)]
#[derive(Clone, Copy)]
pub struct Notices {
    pub fits: bool,
    pub date: u16,
    pub opened: u32,
    pub count: u32,
    pub bad: u32,
}

// The table of a product after the notices, open's refusal, and whether they were taken.
#[repr(C)]
#[derive(Clone, Copy)]
pub struct FlatDelivered {
    pub fits: bool,
    pub refusal: u8,
    pub table: FlatTable,
}

// The number of a refusal, or 0 and a text in a lent buffer: whether there was room, and how long it is.
#[repr(C)]
#[derive(Clone, Copy)]
pub struct TextReply {
    pub refusal: u8,
    pub fits: bool,
    pub length: usize,
}

// A line and how many bytes it has.
#[repr(C)]
#[derive(Clone, Copy)]
pub struct TextLine {
    pub bytes: [u8; 64],
    pub length: usize,
}

// The product at a place of a master file.
pub fn product_at(file: &[u8], place: usize) -> ProductReply
    ensures { result ≡ product_reply (place_call file.now place) }
{
    let there = delivery_products::product_in(file, place);
    let product = c_types::flat_product(there.product);
    ProductReply {
        refusal: there.refusal,
        product,
    }
}

// Nothing was read.
fn no_notices() -> Notices
    ensures { result ≡ no_notices false 0 }
{
    Notices {
        fits: false,
        date: 0,
        opened: 0,
        count: 0,
        bad: 0,
    }
}

// What was read of a text of notices; of one with a bad line its number alone.
fn notices_of(t: NoticesTaken) -> Notices
    ensures { result ≡ notices_of t }
{
    if !t.fits {
        return no_notices();
    }
    if t.bad != 0 {
        return Notices {
            fits: true,
            date: 0,
            opened: 0,
            count: 0,
            bad: t.bad,
        };
    }
    Notices {
        fits: true,
        date: t.date,
        opened: t.opened,
        count: t.count,
        bad: 0,
    }
}

// Reads a text of notices into two lent lists.
pub fn read_notices(text: &[u8], calls: &mut [u32], ids: &mut [u8]) -> Notices
    ensures { NoticesIn text.now calls.old calls.new ids.old ids.new result }
{
    notices_of(delivery_notices::read_notices(text, calls, ids))
}

// Whether notices were read, none of them bad, and a buffer of so many bytes has room for their refusals.
fn is_ready(n: Notices, room: usize) -> bool
    ensures { result ≡ ready n room }
{
    n.fits & ((n.bad == 0) & (n.count as usize <= room))
}

// No notice was taken: a table of zeros, which is not sound.
fn not_delivered() -> FlatDelivered
    ensures { result ≡ not_delivered }
{
    let table = c_types::flat_table(table::zero_table());
    FlatDelivered {
        fits: false,
        refusal: 0,
        table,
    }
}

// The table of the product with an id after the notices of two lists, and the number of each one's refusal in a lent buffer.
pub fn deliver(
    file: &[u8],
    judged: FileCalendar,
    notices: Notices,
    calls: &[u32],
    ids: &[u8],
    id: Id,
    refusals: &mut [u8],
) -> FlatDelivered
    ensures { DeliveredIn (open_in (calendar_answer judged) file.now) id.bytes notices (notices_to calls.now ids.now notices.count) refusals.old refusals.new result }
{
    if !is_ready(notices, refusals.len()) {
        return not_delivered();
    }
    let bytes = id.bytes;
    let d = delivery_tables::deliver(
        file,
        judged,
        bytes,
        notices.date,
        calls,
        ids,
        notices.count,
        refusals,
    );
    let table = c_types::flat_table(d.table);
    FlatDelivered {
        fits: true,
        refusal: d.refusal,
        table,
    }
}

// The rows of a table at the start of a lent buffer of 1,024 bytes or more.
pub fn rows(t: FlatTable, out: &mut [u8]) -> TextReply
    ensures { RowsWritten (unflat_table t) out.old out.new result }
{
    let table = c_types::unflat_table(t);
    if !table::is_sound(table) {
        return TextReply {
            refusal: 10,
            fits: false,
            length: 0,
        };
    }
    if out.len() < 1024 {
        return TextReply {
            refusal: 0,
            fits: false,
            length: 0,
        };
    }
    let product = table.product;
    let id = product.id;
    let length = delivery_rows::print_rows(out, 0, id, table);
    TextReply {
        refusal: 0,
        fits: true,
        length,
    }
}

// A line, for other languages.
pub fn text_line(line: Line) -> TextLine
    ensures { result ≡ text_line line }
{
    let bytes = line.bytes;
    TextLine {
        bytes,
        length: line.length,
    }
}

// The heading of the rows.
pub fn rows_heading() -> TextLine
    ensures { result ≡ text_line (fed empty_line delivery_heading) }
{
    text_line(delivery_rows::delivery_heading_line())
}

// Line i of a product's refused calls: 0 is that of the opening, and i that of notice i - 1. One that was accepted has no bytes.
pub fn refused_call(
    id: Id,
    notices: Notices,
    refusal: u8,
    calls: &[u32],
    refusals: &[u8],
    i: u32,
) -> TextLine
    ensures { result ≡ text_line (fed empty_line (refusal_line id.bytes notices.opened refusal calls.now refusals.now i)) }
{
    let bytes = id.bytes;
    text_line(delivery_refusals::refusal_line(bytes, notices.opened, refusal, calls, refusals, i))
}

// Line i of the measures of ids that the file has not. Another notice has no bytes.
pub fn unknown_measure(file: &[u8], calls: &[u32], ids: &[u8], i: u32) -> TextLine
    ensures { result ≡ text_line (fed empty_line (unknown_line file.now calls.now ids.now i)) }
{
    text_line(delivery_refusals::unknown_measure_line(file, calls, ids, i))
}
