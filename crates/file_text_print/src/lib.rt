// The text of what a master file holds, line by line: the form that lists have.
#![tactic(auto)]

ghost use Rattle.std.specs.Prelude.{◌≡◌, [], ◌∷◌, ◌+◌, ◌≤◌, ◌<◌, ◌⊎◌, length};
ghost use Rattle.std.proofs.Math.Seq.{paste};
ghost use Rattle.calendar.specs.Trading.{cover_start};
ghost use Rattle.file_records.specs.Records.{three_bytes, four_bytes};
ghost use Rattle.session_lines.specs.CommandLines.{empty_line};
ghost use Rattle.session_text.specs.TermsText.{last_digit, in_two_digits, in_four_digits, decimal, day_text, month_text, name_text, spaced};
ghost use Rattle.file_text_print.specs.Contents.{LineWith, cover_text, marked_text, id_text, part_text, product_text, day_line, place_line, cover_days, line_text, line_count, another_line, LinesIn};

use calendar::{Calendar, Cover};
use product::Kind;
use session_lines::Line;

// The next line of the text, and how many bytes of it stand in the buffer.
#[derive(Clone, Copy)]
pub struct PrintProgress {
    pub next: usize,
    pub length: usize,
}

// A line with the bytes of a slice more.
pub fn with_bytes(line: Line, bytes: &[u8]) -> Line
    ensures { LineWith line bytes.now result }
{
    session_lines::feed(line, bytes)
}

// A line with the last decimal digit of a number more.
pub fn with_digit(line: Line, n: u16) -> Line
    ensures { LineWith line (last_digit n ∷ []) result }
{
    session_lines::extend(line, b'0' + (n % 10) as u8)
}

// A line with a number in two digits more.
pub fn with_two(line: Line, n: u16) -> Line
    ensures { LineWith line (in_two_digits n) result }
{
    with_digit(with_digit(line, n / 10), n)
}

// A line with a number in four digits more.
pub fn with_four(line: Line, n: u16) -> Line
    ensures { LineWith line (in_four_digits n) result }
{
    with_two(with_two(line, n / 100), n % 100)
}

// A line with a number in decimal more, with no zeros before it.
pub fn with_decimal(line: Line, n: u16) -> Line
    ensures { LineWith line (decimal n) result }
{
    if n < 10 {
        return with_digit(line, n);
    }
    if n < 100 {
        return with_two(line, n);
    }
    if n < 1000 {
        return with_two(with_digit(line, n / 100), n % 100);
    }
    if n < 10000 {
        return with_four(line, n);
    }
    with_four(with_digit(line, n / 10000), n % 10000)
}

// A line with a space and a number more.
pub fn with_spaced(line: Line, n: u16) -> Line
    ensures { LineWith line (spaced n) result }
{
    with_decimal(session_lines::extend(line, b' '), n)
}

// A line with a day by its date more.
pub fn with_day(line: Line, day: u16) -> Line
    ensures { LineWith line (day_text day) result }
{
    let date = session_text::date_or_zeros(day);
    let year = with_four(line, date.year);
    let month = with_two(session_lines::extend(year, b'-'), date.month);
    with_two(session_lines::extend(month, b'-'), date.day)
}

// A line with a month by its number more.
fn with_month(line: Line, month: u16) -> Line
    ensures { LineWith line (month_text month) result }
{
    let year = with_four(line, 2000 + month / 12);
    with_two(session_lines::extend(year, b'-'), month % 12 + 1)
}

// A line with the name of a maturity more: its month, or the date of its Friday.
pub fn with_name(line: Line, kind: Kind, key: u16) -> Line
    ensures { LineWith line (name_text kind key) result }
{
    if product::is_weekly(kind) {
        return with_day(line, key);
    }
    with_month(line, key)
}

// The line of a cover.
fn cover_line(cover: Cover) -> Line
    ensures { LineWith empty_line (cover_text cover) result }
{
    let letter = session_lines::extend(session_lines::empty_line(), b'Y');
    let first = with_spaced(letter, cover.first_year);
    let years = with_spaced(first, cover.years);
    session_lines::extend(years, b'\n')
}

// The line of a closed day, with its letter.
fn marked_line(letter: u8, day: u16) -> Line
    ensures { LineWith empty_line (marked_text letter day) result }
{
    let begun = session_lines::extend(session_lines::empty_line(), letter);
    let date = with_day(session_lines::extend(begun, b' '), day);
    session_lines::extend(date, b'\n')
}

// A line with the characters of an id more.
pub fn with_id(line: Line, id: [u8; 4]) -> Line
    ensures { LineWith line (id_text id) result }
{
    let mut whole = line;
    for byte in id {
        if byte == b' ' {
            return whole;
        }
        whole = session_lines::extend(whole, byte);
    }
    whole
}

// A line with the ten-thousandths of a size more, where it is not whole.
pub fn with_part(line: Line, part: u16) -> Line
    ensures { LineWith line (part_text part) result }
{
    if part == 0 {
        return line;
    }
    with_four(session_lines::extend(line, b'.'), part)
}

// The line of a product, by its record.
fn product_line(r: &[u8]) -> Line
    ensures { LineWith empty_line (product_text r.now) result }
{
    let letter = session_lines::extend(session_lines::empty_line(), b'P');
    let id = with_id(
        session_lines::extend(letter, b' '),
        file_records::four_at(r, 0),
    );
    let group = with_bytes(
        session_lines::extend(id, b' '),
        &file_records::four_at(r, 4),
    );
    let market = with_bytes(
        session_lines::extend(group, b' '),
        &file_records::four_at(r, 8),
    );
    let kind = with_spaced(market, file_blocks::byte_at(r, 12) as u16);
    let size = with_spaced(kind, file_records::field_at(r, 13));
    let part = with_part(size, file_records::field_at(r, 20));
    let tick = with_spaced(part, file_records::field_at(r, 15));
    let currency = with_bytes(
        session_lines::extend(tick, b' '),
        &file_records::three_at(r, 17),
    );
    session_lines::extend(currency, b'\n')
}

// The line of a day; no bytes where it is not closed.
fn day_line(cal: Calendar, day: u16) -> Line
    ensures { LineWith empty_line (day_line cal day) result }
{
    if calendar::is_in_second_map(cal, day) {
        return marked_line(b'X', day);
    }
    if calendar::is_closed(cal, day) {
        return marked_line(b'C', day);
    }
    session_lines::empty_line()
}

// The line of a place for a record; no bytes where it holds none.
fn place_line(file: &[u8], p: usize) -> Line
    ensures { LineWith empty_line (place_line file.now p) result }
{
    if file_ids::is_record(file, p) {
        return product_line(file_records::record_at(file, p / 15, p % 15));
    }
    session_lines::empty_line()
}

// How many days a cover has.
fn cover_days(cover: Cover) -> usize
    ensures { (result ≡ cover_days cover) × (cover_start cover + result ≤ 36525) }
{
    let start = calendar::cover_start(cover);
    let end = calendar::cover_end(cover);
    if end < start {
        return 0;
    }
    (end - start) as usize
}

// Line n of the text.
fn line_at(cal: Calendar, file: &[u8], n: usize) -> Line
    ensures { LineWith empty_line (line_text cal file.now n) result }
{
    let cover = cal.cover;
    if n == 0 {
        return cover_line(cover);
    }
    let days = cover_days(cover);
    if n <= days {
        return day_line(cal, calendar::cover_start(cover) + (n - 1) as u16);
    }
    place_line(file, n - 1 - days)
}

// How many lines the text has.
pub fn line_count(cal: Calendar, file: &[u8]) -> usize
    ensures { result ≡ line_count cal file.now }
{
    let cover = cal.cover;
    1 + (cover_days(cover) + 15 * (file.len() / 512))
}

// Puts the bytes of a line into a buffer from a place on, and gives the place after them. A line is put where it has at most 64 bytes, and the buffer 64 from the place on.
pub fn append(out: &mut [u8], at: usize, line: Line) -> usize
    ensures put { (line.length ≤ 64) × (at + 64 ≤ length out.old) → (result ≡ at + line.length) × (out.new ≡ paste out.old at line.bytes line.length) }
    ensures not_put { (64 < line.length) ⊎ (length out.old < at + 64) → (result ≡ at) × (out.new ≡ out.old) }
{
    if (64 < line.length) | (out.len() < 64) | (out.len().saturating_sub(64) < at) {
        return at;
    }
    let bytes = line.bytes;
    let end = at + line.length;
    out[at..end].copy_from_slice(&bytes[..line.length]);
    end
}

// Whether there is another line, and room for it.
fn goes_on(n: usize, count: usize, out: &[u8], length: usize) -> bool
    ensures { result ≡ another_line n count out.now length }
{
    if count <= n {
        return false;
    }
    if out.len() < 64 {
        return false;
    }
    length <= out.len() - 64
}

// The lines of the text from one on, in a lent buffer from its start, as long as it has room for another line of 64 bytes.
pub fn print_lines(cal: Calendar, file: &[u8], from: usize, out: &mut [u8]) -> PrintProgress
    ensures { LinesIn cal file.now from out.old out.new result }
{
    let count = line_count(cal, file);
    let mut next = from;
    let mut length: usize = 0;
    while goes_on(next, count, out, length) {
        length = append(out, length, line_at(cal, file, next));
        next += 1;
    }
    PrintProgress { next, length }
}
