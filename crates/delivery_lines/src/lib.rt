// A line of `notices.txt`, and the words of which lines of a delivery are made.
#![tactic(auto)]

ghost use Rattle.std.specs.Prelude.{◌≡◌, ◌+◌, ◌*◌, ◌≤◌, get_or, length, take};
ghost use Rattle.file_text_lines.specs.Entries.{word_at, id_bytes};
ghost use Rattle.delivery_lines.specs.NoticeLines.{blank, trimmed, mark_length, held, number_held, whole_word, price_held, is_id, date_letter, day_line_held, day_said, measure_said, words_said, trimmed_said, said_by, line_held};

use file_text_lines::NumberRead;
use session_lines::Command;

// A line: the letter O, R, C, E or M, the day of the first four, the id, p, q and the price of an M.
// A line that says nothing has the letter #, a bad one 0. Numbers of 1,000,000,000 and more are held as that.
#[derive(Clone, Copy)]
pub struct NoticeLine {
    pub letter: u8,
    pub day: u16,
    pub id: [u8; 4],
    pub p: u32,
    pub q: u32,
    pub price: u32,
}

// Whether a byte is a space, a tab or a carriage return.
pub fn is_blank(byte: u8) -> bool
    ensures { result ≡ blank byte }
{
    (byte == b' ') | ((byte == b'\t') | (byte == b'\r'))
}

// How many bytes a line has without the blanks at its end.
pub fn trimmed_length(line: &[u8]) -> usize
    ensures { (take result line.now ≡ trimmed line.now) × (result ≤ length line.now) }
{
    for n in (0..line.len()).rev() {
        if !is_blank(line[n]) {
            return n + 1;
        }
    }
    0
}

// How many bytes at the start of a text are a byte order mark, 3 or 0.
pub fn mark_length(text: &[u8]) -> usize
    ensures { (result ≡ mark_length text.now) × (result ≤ length text.now) }
{
    if text.len() < 3 {
        return 0;
    }
    if text[0] != 239 {
        return 0;
    }
    if text[1] != 187 {
        return 0;
    }
    if text[2] != 191 {
        return 0;
    }
    3
}

// A number with one digit more; 1,000,000,000 for every number that is larger.
fn digit_more(value: u32, digit: u16) -> u32
    requires { (value ≤ 1000000000) × (digit ≤ 9) }
    ensures { result ≡ held (10 * value + digit) }
{
    let next = 10 * (value as u64) + (digit as u64);
    if 1000000000 < next {
        return 1000000000;
    }
    next as u32
}

// The number that a word is, of any length; 1,000,000,000 for every number that is larger.
pub fn read_number(word: &[u8]) -> NumberRead
    ensures { result ≡ number_held word.now }
{
    let none = NumberRead {
        there: false,
        value: 0,
    };
    if word.len() == 0 {
        return none;
    }
    let mut value: u32 = 0;
    let mut i: usize = 0;
    while i < word.len() {
        if !product::is_digit(word[i]) {
            return none;
        }
        value = digit_more(value, session_lines::digit_value(word[i]));
        i += 1;
    }
    NumberRead { there: true, value }
}

// The number before the point of a price.
fn read_whole(word: &[u8]) -> NumberRead
    ensures { result ≡ number_held (whole_word word.now) }
{
    if file_text_lines::is_pointed(word) {
        let end = word.len() - 5;
        return read_number(&word[..end]);
    }
    read_number(word)
}

// The price that a word is, in 1/10,000 of the currency; 1,000,000,000 for every price that is larger.
pub fn read_price(word: &[u8]) -> NumberRead
    ensures { result ≡ price_held word.now }
{
    let whole = read_whole(word);
    let part = file_text_lines::part_read(word);
    if !(whole.there & part.there) {
        return NumberRead {
            there: false,
            value: 0,
        };
    }
    if 99999 < whole.value {
        return NumberRead {
            there: true,
            value: 1000000000,
        };
    }
    NumberRead {
        there: true,
        value: 10000 * whole.value + part.value,
    }
}

// Whether a word is an id.
pub fn is_id(word: &[u8]) -> bool
    ensures { result ≡ is_id word.now }
{
    if word.len() < 1 {
        return false;
    }
    if 4 < word.len() {
        return false;
    }
    word.iter().all(|byte| product::is_id_character(*byte))
}

// The number that word k of a line is.
pub fn number_in(line: &[u8], k: usize) -> NumberRead
    ensures { result ≡ number_held (word_at line.now k) }
{
    read_number(file_text_lines::word_at(line, k))
}

// The price that word k of a line is.
pub fn price_in(line: &[u8], k: usize) -> NumberRead
    ensures { result ≡ price_held (word_at line.now k) }
{
    read_price(file_text_lines::word_at(line, k))
}

// Whether word k of a line is an id.
pub fn is_id_in(line: &[u8], k: usize) -> bool
    ensures { result ≡ is_id (word_at line.now k) }
{
    is_id(file_text_lines::word_at(line, k))
}

// The four bytes of the id that word k of a line is.
pub fn id_word(line: &[u8], k: usize) -> file_records::FourBytes
    ensures { result ≡ id_bytes (word_at line.now k) }
{
    file_text_lines::id_bytes(file_text_lines::word_at(line, k))
}

// A line with a letter and a day.
fn notice_day_held(letter: u8, day: u16) -> NoticeLine
    ensures { result ≡ day_line_held letter day }
{
    NoticeLine {
        letter,
        day,
        id: [0, 0, 0, 0],
        p: 0,
        q: 0,
        price: 0,
    }
}

// Whether a byte is the letter of a line with a date.
fn is_date_letter(letter: u8) -> bool
    ensures { result ≡ date_letter letter }
{
    (letter == b'O') | ((letter == b'R') | ((letter == b'C') | (letter == b'E')))
}

// A line of a letter and a date, or a bad one.
fn day_notice(letter: u8, date: Command) -> NoticeLine
    ensures { result ≡ line_held (day_said letter date) }
{
    if date.letter == 0 {
        return notice_day_held(0, 0);
    }
    if !is_date_letter(letter) {
        return notice_day_held(0, 0);
    }
    notice_day_held(letter, date.day)
}

// A measure or a bad line.
fn measure_line(line: &[u8]) -> NoticeLine
    ensures { result ≡ line_held (measure_said line.now) }
{
    if file_blocks::byte_at(line, 0) != b'M' {
        return notice_day_held(0, 0);
    }
    if !is_id_in(line, 1) {
        return notice_day_held(0, 0);
    }
    let p = number_in(line, 2);
    let q = number_in(line, 3);
    let price = price_in(line, 4);
    if !(p.there & (q.there & price.there)) {
        return notice_day_held(0, 0);
    }
    let id = id_word(line, 1);
    NoticeLine {
        letter: b'M',
        day: 0,
        id,
        p: p.value,
        q: q.value,
        price: price.value,
    }
}

// What the words of a line say.
fn words_line(line: &[u8]) -> NoticeLine
    ensures { result ≡ line_held (words_said line.now) }
{
    if file_text_lines::is_letter_form(line, 2) {
        let date = confirm_lines::date_in(file_text_lines::word_at(line, 1));
        return day_notice(file_blocks::byte_at(line, 0), date);
    }
    if file_text_lines::is_letter_form(line, 5) {
        return measure_line(line);
    }
    notice_day_held(0, 0)
}

// What a line without blanks at its end says.
fn trimmed_line(line: &[u8]) -> NoticeLine
    ensures { result ≡ line_held (trimmed_said line.now) }
{
    if line.len() == 0 {
        return notice_day_held(b'#', 0);
    }
    if line[0] == b'#' {
        return notice_day_held(b'#', 0);
    }
    words_line(line)
}

// What a line of any length says.
pub fn notice_of(line: &[u8]) -> NoticeLine
    ensures { result ≡ line_held (said_by line.now) }
{
    let n = trimmed_length(line);
    trimmed_line(&line[..n])
}
