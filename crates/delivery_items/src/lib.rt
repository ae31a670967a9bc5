// A line of the rows that `reconcile` reads.
#![tactic(auto)]

ghost use Rattle.std.specs.Prelude.{◌≡◌, ◌≤◌, eqb, length, take, drop};
ghost use Rattle.delivery_items.specs.Items.{separator, fields_of, unquoted, raw_field, field_at, no_item, maturity_read, key_read, short_item, full_item, fields_item, item_of, is_product_word, headed, line_read, empty_long, lengthened, held_read};
ghost use Rattle.delivery_items.specs.LineFields.{SeparatorFrom};
ghost use Rattle.delivery_items.specs.LineEnds.{line_end};

use file_text_lines::NumberRead;
use session_lines::Command;

// A row: the id, the key of a month or of a weekly option's Friday, and the last trading day;
// of a full one, which has five fields, also the listing number and the days back. Another line is none, with zeros.
#[derive(Clone, Copy)]
pub struct ItemRead {
    pub there: bool,
    pub id: [u8; 4],
    pub weekly: bool,
    pub key: u16,
    pub day: u16,
    pub full: bool,
    pub number: u16,
    pub back: u16,
}

// What a line says: whether it is empty, whether its first field is `product`, and its row.
#[derive(Clone, Copy)]
pub struct LineRead {
    pub empty: bool,
    pub heading: bool,
    pub item: ItemRead,
}

// A line: its first 255 bytes and their number, and whether a byte after them is no blank.
#[derive(Clone, Copy)]
pub struct LongLine {
    pub bytes: [u8; 255],
    pub length: usize,
    pub over: bool,
}

// A line, the place in a part of the input after it, and whether a line feed ended it.
#[derive(Clone, Copy)]
pub struct LineEnd {
    pub line: LongLine,
    pub next: usize,
    pub ended: bool,
}

// Whether a byte parts two fields.
fn is_separator(byte: u8) -> bool
    ensures { result ≡ separator byte }
{
    (byte == b',') | ((byte == b';') | (byte == b'\t'))
}

// The place of the first separator from a place on, or the line's end.
fn separator_from(line: &[u8], from: usize) -> usize
    requires { from ≤ length line.now }
    ensures { SeparatorFrom line.now from result }
{
    for i in from..line.len() {
        if is_separator(line[i]) {
            return i;
        }
    }
    line.len()
}

// How many fields a line has.
fn field_count(line: &[u8]) -> usize
    ensures { result ≡ length (fields_of line.now) }
{
    let mut count: usize = 1;
    let mut from = separator_from(line, 0);
    while from < line.len() {
        count += 1;
        from = separator_from(line, from + 1);
    }
    count
}

// Field k of a line as it stands there, from 0; no bytes where there is none.
fn raw_field(line: &[u8], k: usize) -> &[u8]
    ensures { result.now ≡ raw_field line.now k }
{
    let mut from: usize = 0;
    for i in 0..k {
        let end = separator_from(line, from);
        if line.len() <= end {
            return &line[0..0];
        }
        from = end + 1;
    }
    let end = separator_from(line, from);
    &line[from..end]
}

// A field without its quotes.
fn unquote(field: &[u8]) -> &[u8]
    ensures { result.now ≡ unquoted field.now }
{
    let n = field.len();
    if n < 2 {
        return field;
    }
    if field[0] != b'"' {
        return field;
    }
    if field[n - 1] != b'"' {
        return field;
    }
    let end = n - 1;
    &field[1..end]
}

// Field k of a line without its quotes.
pub fn line_field(line: &[u8], k: usize) -> &[u8]
    ensures { result.now ≡ field_at line.now k }
{
    unquote(raw_field(line, k))
}

// Another line.
fn no_item() -> ItemRead
    ensures { result ≡ no_item }
{
    ItemRead {
        there: false,
        id: [0, 0, 0, 0],
        weekly: false,
        key: 0,
        day: 0,
        full: false,
        number: 0,
        back: 0,
    }
}

// The day of a maturity: of a month, 2008-04, its first; of a Friday, the Friday. No letter where it is neither.
fn maturity_read(field: &[u8]) -> Command
    ensures { result ≡ maturity_read field.now }
{
    if field.len() == 7 {
        return confirm_lines::month_in(field);
    }
    confirm_lines::date_in(field)
}

// The key of a maturity with that day.
fn key_read(field: &[u8], day: u16) -> u16
    ensures { result ≡ key_read field.now day }
{
    if field.len() == 7 {
        return days::month_of(day);
    }
    day
}

// The row of three fields: an id, a maturity and a last trading day.
fn short_item(id: &[u8], maturity: &[u8], last: &[u8]) -> ItemRead
    ensures { result ≡ short_item id.now maturity.now last.now }
{
    let first = maturity_read(maturity);
    let end = confirm_lines::date_in(last);
    if !(delivery_lines::is_id(id) & ((first.letter != 0) & (end.letter != 0))) {
        return no_item();
    }
    let four = file_text_lines::id_bytes(id);
    ItemRead {
        there: true,
        id: four,
        weekly: maturity.len() != 7,
        key: key_read(maturity, first.day),
        day: end.day,
        full: false,
        number: 0,
        back: 0,
    }
}

// A row with the two numbers of five fields.
fn full_item(item: ItemRead, number: NumberRead, back: NumberRead) -> ItemRead
    requires { (number.value ≤ 65535) × (back.value ≤ 65535) }
    ensures { result ≡ full_item item number back }
{
    if !(item.there & (number.there & back.there)) {
        return no_item();
    }
    let id = item.id;
    ItemRead {
        there: true,
        id,
        weekly: item.weekly,
        key: item.key,
        day: item.day,
        full: true,
        number: number.value as u16,
        back: back.value as u16,
    }
}

// The row of the fields of a line.
fn fields_item(text: &[u8]) -> ItemRead
    ensures { result ≡ fields_item text.now }
{
    let fields = field_count(text);
    let id = line_field(text, 0);
    if fields == 3 {
        return short_item(id, line_field(text, 1), line_field(text, 2));
    }
    if fields == 5 {
        let item = short_item(id, line_field(text, 2), line_field(text, 3));
        let number = file_text_lines::word_number(line_field(text, 1), 65535);
        let back = file_text_lines::word_number(line_field(text, 4), 65535);
        return full_item(item, number, back);
    }
    no_item()
}

// The row of a line that has no blanks at its end.
fn item_of(text: &[u8]) -> ItemRead
    ensures { result ≡ item_of text.now }
{
    if 255 < text.len() {
        return no_item();
    }
    fields_item(text)
}

// Whether some bytes are the word `product`.
fn is_product_word(field: &[u8]) -> bool
    ensures { result ≡ is_product_word field.now }
{
    field == b"product".as_slice()
}

// Whether the first field of a line is `product`.
fn is_headed(text: &[u8]) -> bool
    ensures { result ≡ headed text.now }
{
    is_product_word(line_field(text, 0))
}

// What a line of any length says that has no blanks at its end.
fn read_trimmed(text: &[u8]) -> LineRead
    ensures { (result.empty ≡ eqb (length text.now) 0) × (result.heading ≡ headed text.now) × (result.item ≡ item_of text.now) }
{
    let heading = is_headed(text);
    let item = item_of(text);
    LineRead {
        empty: text.len() == 0,
        heading,
        item,
    }
}

// What a line of any length says.
pub fn read_line(line: &[u8]) -> LineRead
    ensures { result ≡ line_read line.now }
{
    let n = delivery_lines::trimmed_length(line);
    read_trimmed(&line[..n])
}

// A line with no bytes.
pub fn empty_long_line() -> LongLine
    ensures { result ≡ empty_long }
{
    LongLine {
        bytes: [0; 255],
        length: 0,
        over: false,
    }
}

// A line with one byte more.
pub fn extend_long(line: LongLine, byte: u8) -> LongLine
    ensures { result ≡ lengthened line byte }
{
    let at = line.length;
    let mut bytes = line.bytes;
    if 255 <= at {
        return LongLine {
            bytes,
            length: at,
            over: line.over | !delivery_lines::is_blank(byte),
        };
    }
    bytes[at] = byte;
    LongLine {
        bytes,
        length: at + 1,
        over: line.over,
    }
}

// A line begun with its bytes from a place of a part on, up to its line feed or to the end of the part.
pub fn line_from(line: LongLine, part: &[u8], from: usize) -> LineEnd
    ensures { result ≡ line_end line (drop from part.now) from }
{
    let mut l = line;
    for i in from..part.len() {
        let byte = part[i];
        if byte == b'\n' {
            return LineEnd {
                line: l,
                next: i + 1,
                ended: true,
            };
        }
        l = extend_long(l, byte);
    }
    LineEnd {
        line: l,
        next: from.max(part.len()),
        ended: false,
    }
}

// How many bytes of a line are held, at most 255.
pub fn held_length(line: LongLine) -> usize
    ensures { (result ≤ 255) × (take result line.bytes ≡ take line.length line.bytes) }
{
    if 255 < line.length {
        return 255;
    }
    line.length
}

// What a line says, as it is held.
pub fn read_held(line: LongLine) -> LineRead
    ensures { result ≡ held_read line }
{
    let n = held_length(line);
    let bytes = line.bytes;
    if line.over {
        let heading = is_headed(&bytes[..n]);
        let item = no_item();
        return LineRead {
            empty: false,
            heading,
            item,
        };
    }
    read_line(&bytes[..n])
}
