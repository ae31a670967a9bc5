// A line of what `query` reads.
#![tactic(auto)]

ghost use Rattle.std.specs.Prelude.{◌≡◌};
ghost use Rattle.file_text_lines.specs.Entries.{word_at};
ghost use Rattle.delivery_questions.specs.QuestionLines.{is_word, last_asked, due_asked, tick_asked, three_asked, cash_asked, size_asked, words_asked, trimmed_asked, asked_by, bare_held, one_held, day_question_held, asked_held};

use session_lines::Command;

// A question: its first letter, l, d, t, c or s, the id, the key of `last`, and whether it is a Friday, or the day of `due`,
// the price of `tick` or the contracts of `cash`, and its two prices.
// A line that asks nothing has the letter #, a bad one 0. Numbers of 1,000,000,000 and more are held as that.
#[derive(Clone, Copy)]
pub struct QuestionLine {
    pub letter: u8,
    pub id: [u8; 4],
    pub friday: bool,
    pub day: u16,
    pub number: u32,
    pub agreed: u32,
    pub final_price: u32,
}

// A line with a letter and nothing else.
pub fn bare_held(letter: u8) -> QuestionLine
    ensures { result ≡ bare_held letter }
{
    QuestionLine {
        letter,
        id: [0, 0, 0, 0],
        friday: false,
        day: 0,
        number: 0,
        agreed: 0,
        final_price: 0,
    }
}

// A question with a day, or the key of a month, and a number.
fn one_held(letter: u8, id: [u8; 4], friday: bool, day: u16, number: u32) -> QuestionLine
    ensures { result ≡ one_held letter id friday day number }
{
    QuestionLine {
        letter,
        id,
        friday,
        day,
        number,
        agreed: 0,
        final_price: 0,
    }
}

// Whether a word is a name.
fn is_word(name: &[u8], word: &[u8]) -> bool
    ensures { result ≡ is_word name.now word.now }
{
    word == name
}

// A question with a day that was read, or a bad line.
fn day_question_held(letter: u8, id: [u8; 4], friday: bool, date: Command) -> QuestionLine
    ensures { result ≡ day_question_held letter id friday date }
{
    if date.letter == 0 {
        return bare_held(0);
    }
    one_held(letter, id, friday, date.day, 0)
}

// A question for a last trading day.
fn last_asked(id: [u8; 4], word: &[u8]) -> QuestionLine
    ensures { result ≡ asked_held (last_asked id word.now) }
{
    if word.len() != 7 {
        return day_question_held(b'l', id, true, confirm_lines::date_in(word));
    }
    let first = confirm_lines::month_in(word);
    if first.letter == 0 {
        return bare_held(0);
    }
    one_held(b'l', id, false, days::month_of(first.day), 0)
}

// A question for a due day.
fn due_asked(id: [u8; 4], word: &[u8]) -> QuestionLine
    ensures { result ≡ asked_held (due_asked id word.now) }
{
    day_question_held(b'd', id, false, confirm_lines::date_in(word))
}

// A question about a price.
fn tick_asked(id: [u8; 4], word: &[u8]) -> QuestionLine
    ensures { result ≡ asked_held (tick_asked id word.now) }
{
    let price = delivery_lines::read_price(word);
    if !price.there {
        return bare_held(0);
    }
    one_held(b't', id, false, 0, price.value)
}

// A question of three words.
fn three_asked(id: [u8; 4], name: &[u8], word: &[u8]) -> QuestionLine
    ensures { result ≡ asked_held (three_asked id name.now word.now) }
{
    if is_word(b"last", name) {
        return last_asked(id, word);
    }
    if is_word(b"due", name) {
        return due_asked(id, word);
    }
    if is_word(b"tick", name) {
        return tick_asked(id, word);
    }
    bare_held(0)
}

// A question for cash, by the last three words of a line.
fn cash_asked(id: [u8; 4], line: &[u8]) -> QuestionLine
    ensures { result ≡ asked_held (cash_asked id (word_at line.now 1) (word_at line.now 2) (word_at line.now 3) (word_at line.now 4)) }
{
    if !is_word(b"cash", file_text_lines::word_at(line, 1)) {
        return bare_held(0);
    }
    let contracts = delivery_lines::number_in(line, 2);
    let agreed = delivery_lines::price_in(line, 3);
    let last = delivery_lines::price_in(line, 4);
    if !(contracts.there & (agreed.there & last.there)) {
        return bare_held(0);
    }
    QuestionLine {
        letter: b'c',
        id,
        friday: false,
        day: 0,
        number: contracts.value,
        agreed: agreed.value,
        final_price: last.value,
    }
}

// A question for a size.
fn size_asked(id: [u8; 4], name: &[u8]) -> QuestionLine
    ensures { result ≡ asked_held (size_asked id name.now) }
{
    if !is_word(b"size", name) {
        return bare_held(0);
    }
    one_held(b's', id, false, 0, 0)
}

// What the words of a line ask.
fn words_asked(line: &[u8]) -> QuestionLine
    ensures { result ≡ asked_held (words_asked line.now) }
{
    if !delivery_lines::is_id_in(line, 0) {
        return bare_held(0);
    }
    let id = delivery_lines::id_word(line, 0);
    let words = file_text_lines::word_count(line);
    if words == 2 {
        return size_asked(id, file_text_lines::word_at(line, 1));
    }
    if words == 3 {
        return three_asked(
            id,
            file_text_lines::word_at(line, 1),
            file_text_lines::word_at(line, 2),
        );
    }
    if words == 5 {
        return cash_asked(id, line);
    }
    bare_held(0)
}

// What a line without blanks at its end asks.
pub fn trimmed_asked(line: &[u8]) -> QuestionLine
    ensures { result ≡ asked_held (trimmed_asked line.now) }
{
    if line.len() == 0 {
        return bare_held(b'#');
    }
    if line[0] == b'#' {
        return bare_held(b'#');
    }
    if 255 < line.len() {
        return bare_held(0);
    }
    words_asked(line)
}

// What a line of any length asks.
pub fn question_of(line: &[u8]) -> QuestionLine
    ensures { result ≡ asked_held (asked_by line.now) }
{
    let n = delivery_lines::trimmed_length(line);
    trimmed_asked(&line[..n])
}
