// The lines of a list, from which a master file is made: a line of any length to an entry.
#![tactic(auto)]

ghost use Rattle.std.specs.Prelude.{◌≡◌, ◌≤◌, length, get_or};
ghost use Rattle.file_text_lines.specs.Entries.{words_of, word_at, word_number, pointed, shares_read, part_read, other_entry, letter_form, cover_at, cover_kept, cover_entry, seed_entry, day_entry, product_form, id_bytes, line_record, product_entry, line_entry};

use calendar::Cover;
use session_lines::Line;

// Whether there is a number, and which.
#[derive(Clone, Copy)]
pub struct NumberRead {
    pub there: bool,
    pub value: u32,
}

// An entry: the letter Y, S, C, X or P, the cover of a Y or S, the seed of an S, the day of a C or X, the record of a P. Another line has no letter, 0.
#[derive(Clone, Copy)]
pub struct Entry {
    pub letter: u8,
    pub cover: Cover,
    pub seed: u32,
    pub day: u16,
    pub record: file_write::Record,
}

// How many words a line has.
pub fn word_count(line: &[u8]) -> usize
    ensures { result ≡ length (words_of line.now) }
{
    1 + line.iter().filter(|b| **b == b' ').count()
}

// Word k of a line, from 0; no bytes where there is none.
pub fn word_at(line: &[u8], k: usize) -> &[u8]
    ensures { result.now ≡ word_at line.now k }
{
    let mut from: usize = 0;
    for i in 0..k {
        let end = session_lines::byte_from(line, from, b' ');
        if line.len() <= end {
            return &line[..0];
        }
        from = end + 1;
    }
    let end = session_lines::byte_from(line, from, b' ');
    &line[from..end]
}

// How many bytes word k has.
fn word_length(line: &[u8], k: usize) -> usize
    ensures { result ≡ length (word_at line.now k) }
{
    let word = word_at(line, k);
    word.len()
}

// The number that a word is, where it is one and at most a given number.
pub fn word_number(word: &[u8], most: u32) -> NumberRead
    ensures { result ≡ word_number word.now most }
{
    let none = NumberRead {
        there: false,
        value: 0,
    };
    if word.len() == 0 {
        return none;
    }
    let mut value: u64 = 0;
    for byte in word {
        if !product::is_digit(*byte) {
            return none;
        }
        let next = 10 * value + (session_lines::digit_value(*byte) as u64);
        if (most as u64) < next {
            return none;
        }
        value = next;
    }
    NumberRead {
        there: true,
        value: value as u32,
    }
}

// The number that word k of a line is.
fn number_in(line: &[u8], k: usize, most: u32) -> NumberRead
    ensures { result ≡ word_number (word_at line.now k) most }
{
    word_number(word_at(line, k), most)
}

// Whether a point stands before the last four bytes of a word.
pub fn is_pointed(word: &[u8]) -> bool
    ensures { result ≡ pointed word.now }
{
    let n = word.len();
    if n < 5 {
        return false;
    }
    word[n - 5] == b'.'
}

// The shares of a size.
fn shares_read(word: &[u8]) -> NumberRead
    ensures { result ≡ shares_read word.now }
{
    if is_pointed(word) {
        let end = word.len() - 5;
        return word_number(&word[..end], 65535);
    }
    word_number(word, 65535)
}

// The ten-thousandths of a size.
pub fn part_read(word: &[u8]) -> NumberRead
    ensures { result ≡ part_read word.now }
{
    if is_pointed(word) {
        let start = word.len() - 4;
        return word_number(&word[start..], 9999);
    }
    NumberRead {
        there: true,
        value: 0,
    }
}

// The shares of the size that word k of a line is.
fn shares_in(line: &[u8], k: usize) -> NumberRead
    ensures { result ≡ shares_read (word_at line.now k) }
{
    shares_read(word_at(line, k))
}

// Its ten-thousandths.
fn part_in(line: &[u8], k: usize) -> NumberRead
    ensures { result ≡ part_read (word_at line.now k) }
{
    part_read(word_at(line, k))
}

// Another line.
fn other_entry() -> Entry
    ensures { result ≡ other_entry }
{
    Entry {
        letter: 0,
        cover: Cover {
            first_year: 0,
            years: 0,
        },
        seed: 0,
        day: 0,
        record: [0; 32],
    }
}

// Whether a line has so many words, the letter among them, and the first of them has one byte.
pub fn is_letter_form(line: &[u8], words: usize) -> bool
    ensures { result ≡ letter_form line.now words }
{
    (word_count(line) == words) & (word_length(line, 0) == 1)
}

// The cover that words k and m of a line are, where both are numbers.
fn cover_at(line: &[u8], k: usize, m: usize) -> Option<Cover>
    ensures { result ≡ cover_kept (cover_at line.now k m) }
{
    let first = number_in(line, k, 65535);
    let years = number_in(line, m, 65535);
    if !(first.there & years.there) {
        return None;
    }
    Some(Cover {
        first_year: first.value as u16,
        years: years.value as u16,
    })
}

// A cover or another line.
fn cover_entry(line: &[u8]) -> Entry
    ensures { result ≡ cover_entry line.now }
{
    if !is_letter_form(line, 3) {
        return other_entry();
    }
    let Some(cover) = cover_at(line, 1, 2) else {
        return other_entry();
    };
    Entry {
        letter: b'Y',
        cover,
        seed: 0,
        day: 0,
        record: [0; 32],
    }
}

// A seed with a cover, or another line.
fn seed_entry(line: &[u8]) -> Entry
    ensures { result ≡ seed_entry line.now }
{
    if !is_letter_form(line, 4) {
        return other_entry();
    }
    let seed = number_in(line, 1, 4294967295);
    if !seed.there {
        return other_entry();
    }
    let Some(cover) = cover_at(line, 2, 3) else {
        return other_entry();
    };
    Entry {
        letter: b'S',
        cover,
        seed: seed.value,
        day: 0,
        record: [0; 32],
    }
}

// A closed day or another line.
fn day_entry(line: Line) -> Entry
    ensures { result ≡ day_entry (λ i. get_or line.bytes i 0) line.length }
{
    let bytes = line.bytes;
    let letter = bytes[0];
    if line.length != 12 {
        return other_entry();
    }
    if !(((letter == b'C') | (letter == b'X')) & (bytes[1] == b' ')) {
        return other_entry();
    }
    let date = session_lines::date_from(line, 2);
    if !date.there {
        return other_entry();
    }
    Entry {
        letter,
        cover: Cover {
            first_year: 0,
            years: 0,
        },
        seed: 0,
        day: date.day,
        record: [0; 32],
    }
}

// Whether a line has the eight words of a product.
fn is_product_form(line: &[u8]) -> bool
    ensures { result ≡ product_form line.now }
{
    let id = word_length(line, 1);
    is_letter_form(line, 8)
        & ((1 <= id)
            & ((id <= 4)
                & ((word_length(line, 2) == 4)
                    & ((word_length(line, 3) == 4) & (word_length(line, 7) == 3)))))
}

// Byte i of an id, or a space after its last.
fn byte_or_space(id: &[u8], i: usize) -> u8
    ensures { result ≡ get_or id.now i 32 }
{
    if i < id.len() {
        return id[i];
    }
    b' '
}

// The four bytes of an id.
pub fn id_bytes(id: &[u8]) -> file_records::FourBytes
    ensures { result ≡ id_bytes id.now }
{
    [
        byte_or_space(id, 0),
        byte_or_space(id, 1),
        byte_or_space(id, 2),
        byte_or_space(id, 3),
    ]
}

// The record of a line that has the words of a product, with its numbers.
fn line_record(line: &[u8], kind: u8, shares: u16, part: u16, tick: u16) -> file_write::Record
    ensures { result ≡ line_record line.now kind shares part tick }
{
    let id = id_bytes(word_at(line, 1));
    let group = file_records::four_at(word_at(line, 2), 0);
    let market = file_records::four_at(word_at(line, 3), 0);
    let currency = file_records::three_at(word_at(line, 7), 0);
    file_write::field_bytes(id, group, market, kind, shares, tick, currency, part)
}

// A product or another line.
fn product_entry(line: &[u8]) -> Entry
    ensures { result ≡ product_entry line.now }
{
    if !is_product_form(line) {
        return other_entry();
    }
    let kind = number_in(line, 4, 255);
    if !kind.there {
        return other_entry();
    }
    let shares = shares_in(line, 5);
    if !shares.there {
        return other_entry();
    }
    let part = part_in(line, 5);
    if !part.there {
        return other_entry();
    }
    let tick = number_in(line, 6, 65535);
    if !tick.there {
        return other_entry();
    }
    let record = line_record(
        line,
        kind.value as u8,
        shares.value as u16,
        part.value as u16,
        tick.value as u16,
    );
    Entry {
        letter: b'P',
        cover: Cover {
            first_year: 0,
            years: 0,
        },
        seed: 0,
        day: 0,
        record,
    }
}

// The entry of a line.
pub fn entry_of(line: Line) -> Entry
    ensures { result ≡ line_entry line }
{
    let n = line.length;
    let bytes = line.bytes;
    let letter = bytes[0];
    if 64 <= n {
        return other_entry();
    }
    if letter == b'Y' {
        return cover_entry(&bytes[..n]);
    }
    if letter == b'S' {
        return seed_entry(&bytes[..n]);
    }
    if letter == b'P' {
        return product_entry(&bytes[..n]);
    }
    day_entry(line)
}
