// The text that is printed for an answer, in a lent buffer.
#![tactic(auto)]

ghost use Rattle.std.specs.Prelude.{◌≡◌, [], ◌∷◌, ◌+◌, ◌≤◌, ◌<◌, length};
ghost use Rattle.days.specs.Dates.{date_call};
ghost use Rattle.session_text.specs.TermsText.{last_digit, in_two_digits, in_four_digits, decimal, year_month, month_text, day_text, spaced, name_text, maturity_text, maturities_text, name_width, lines_width, heading_text, call_text, outcome_text, refusal_text, bad_text};
ghost use Rattle.session_text.specs.Buffer.{Written, Printed, roomy};

use days::Date;
use listing::Maturity;
use product::Kind;
use table::Outcome;

// One byte.
fn put(out: &mut [u8], at: usize, byte: u8) -> usize
    requires { at + 1 ≤ length out.old }
    ensures { Written out.old out.new at result (byte ∷ []) × (result ≤ at + 1) }
{
    out[at] = byte;
    at + 1
}

// The last decimal digit of a number.
fn put_digit(out: &mut [u8], at: usize, n: u16) -> usize
    requires { at + 1 ≤ length out.old }
    ensures { Written out.old out.new at result (last_digit n ∷ []) × (result ≤ at + 1) }
{
    put(out, at, b'0' + (n % 10) as u8)
}

// A number in two digits.
fn put_two(out: &mut [u8], at: usize, n: u16) -> usize
    requires { at + 2 ≤ length out.old }
    ensures { Written out.old out.new at result (in_two_digits n) × (result ≤ at + 2) }
{
    let next = put_digit(out, at, n / 10);
    put_digit(out, next, n)
}

// A number in four digits.
fn put_four(out: &mut [u8], at: usize, n: u16) -> usize
    requires { at + 4 ≤ length out.old }
    ensures { Written out.old out.new at result (in_four_digits n) × (result ≤ at + 4) }
{
    let next = put_two(out, at, n / 100);
    put_two(out, next, n % 100)
}

// A number in decimal, with no zeros before it.
fn put_decimal(out: &mut [u8], at: usize, n: u16) -> usize
    requires { at + 5 ≤ length out.old }
    ensures { Written out.old out.new at result (decimal n) × (result ≤ at + 5) }
{
    if n < 10 {
        return put_digit(out, at, n);
    }
    if n < 100 {
        return put_two(out, at, n);
    }
    if n < 1000 {
        let next = put_digit(out, at, n / 100);
        return put_two(out, next, n % 100);
    }
    if n < 10000 {
        return put_four(out, at, n);
    }
    let next = put_digit(out, at, n / 10000);
    put_four(out, next, n % 10000)
}

// A space and a number.
fn put_spaced(out: &mut [u8], at: usize, n: u16) -> usize
    requires { at + 6 ≤ length out.old }
    ensures { Written out.old out.new at result (spaced n) × (result ≤ at + 6) }
{
    let next = put(out, at, b' ');
    put_decimal(out, next, n)
}

// A year in four digits, of which those of 2000 to 2099 begin alike.
fn put_year(out: &mut [u8], at: usize, year: u16) -> usize
    requires { at + 4 ≤ length out.old }
    ensures { Written out.old out.new at result (in_four_digits year) × (result ≤ at + 4) }
{
    if year < 2000 {
        return put_four(out, at, year);
    }
    if 2100 <= year {
        return put_four(out, at, year);
    }
    let second = put(out, at, b'2');
    let third = put(out, second, b'0');
    put_two(out, third, year - 2000)
}

// A year and a month.
fn put_year_month(out: &mut [u8], at: usize, year: u16, month: u16) -> usize
    requires { at + 7 ≤ length out.old }
    ensures { Written out.old out.new at result (year_month year month) × (result ≤ at + 7) }
{
    let hyphen = put_year(out, at, year);
    let next = put(out, hyphen, b'-');
    put_two(out, next, month)
}

// A month by its number.
fn put_month(out: &mut [u8], at: usize, month: u16) -> usize
    requires { at + 7 ≤ length out.old }
    ensures { Written out.old out.new at result (month_text month) × (result ≤ at + 7) }
{
    put_year_month(out, at, 2000 + month / 12, month % 12 + 1)
}

// The date of a day; zeros for a number that is no day.
pub fn date_or_zeros(day: u16) -> Date
    ensures { result ≡ (date_call day).value }
{
    days::date_of_day(day).unwrap_or(Date {
        year: 0,
        month: 0,
        day: 0,
    })
}

// A day by its date.
fn put_day(out: &mut [u8], at: usize, day: u16) -> usize
    requires { at + 10 ≤ length out.old }
    ensures { Written out.old out.new at result (day_text day) × (result ≤ at + 10) }
{
    let date = date_or_zeros(day);
    let hyphen = put_year_month(out, at, date.year, date.month);
    let next = put(out, hyphen, b'-');
    put_two(out, next, date.day)
}

// The name of a maturity: its month, or the date of its Friday.
fn put_name(out: &mut [u8], at: usize, kind: Kind, key: u16) -> usize
    requires { at + name_width kind ≤ length out.old }
    ensures { Written out.old out.new at result (name_text kind key) × (result ≤ at + name_width kind) }
{
    if product::is_weekly(kind) {
        return put_day(out, at, key);
    }
    put_month(out, at, key)
}

// The line of a maturity.
fn put_maturity(out: &mut [u8], at: usize, kind: Kind, m: Maturity) -> usize
    requires { at + (24 + name_width kind) ≤ length out.old }
    ensures { Written out.old out.new at result (maturity_text kind m) × (result ≤ at + (24 + name_width kind)) }
{
    let space = put_decimal(out, at, m.number);
    let name = put(out, space, b' ');
    let second = put_name(out, name, kind, m.key);
    let day = put(out, second, b' ');
    let third = put_day(out, day, m.day);
    let end = put_spaced(out, third, m.back);
    put(out, end, b'\n')
}

// The lines of the first n maturities.
fn put_maturities(
    out: &mut [u8],
    at: usize,
    kind: Kind,
    maturities: [Maturity; 15],
    n: usize,
) -> usize
    requires { (n ≤ 15) × (lines_width kind n ≤ 465) × (at + 465 ≤ length out.old) }
    ensures { Written out.old out.new at result (maturities_text kind n maturities) × (result ≤ at + 465) }
{
    let mut next = at;
    for m in &maturities[..n] {
        next = put_maturity(out, next, kind, *m);
    }
    next
}

// The first line of an accepted call: its letter, the table's date, entered, left, given.
fn put_heading(
    out: &mut [u8],
    at: usize,
    letter: u8,
    date: u16,
    entered: u16,
    left: u16,
    given: u16,
) -> usize
    requires { at + 31 ≤ length out.old }
    ensures { Written out.old out.new at result (heading_text letter date entered left given) × (result ≤ at + 31) }
{
    let space = put(out, at, letter);
    let day = put(out, space, b' ');
    let first = put_day(out, day, date);
    let second = put_spaced(out, first, entered);
    let third = put_spaced(out, second, left);
    let end = put_spaced(out, third, given);
    put(out, end, b'\n')
}

// The answer to an accepted call, of what it leaves of a table and of its counts.
fn put_call(
    out: &mut [u8],
    at: usize,
    letter: u8,
    kind: Kind,
    date: u16,
    entered: u16,
    left: u16,
    given: u16,
    maturities: [Maturity; 15],
) -> usize
    requires { at + 496 ≤ length out.old }
    ensures { Written out.old out.new at result (call_text letter kind date entered left given maturities) × (result ≤ at + 496) }
{
    let n = listing::places_of_kind(kind);
    let next = put_heading(out, at, letter, date, entered, left, given);
    put_maturities(out, next, kind, maturities, n as usize)
}

// The answer to a refused call.
fn put_refusal(out: &mut [u8], at: usize, number: u8) -> usize
    requires { at + 9 ≤ length out.old }
    ensures { Written out.old out.new at result (refusal_text number) × (result ≤ at + 9) }
{
    let second = put(out, at, b'N');
    let space = put(out, second, b'O');
    let end = put_spaced(out, space, number as u16);
    put(out, end, b'\n')
}

// The answer to another line.
fn put_bad(out: &mut [u8], at: usize) -> usize
    requires { at + 4 ≤ length out.old }
    ensures { Written out.old out.new at result bad_text × (result ≤ at + 4) }
{
    let second = put(out, at, b'B');
    let third = put(out, second, b'A');
    let end = put(out, third, b'D');
    put(out, end, b'\n')
}

// Whether a buffer has room for any answer.
fn has_room(out: &[u8], at: usize) -> bool
    ensures { result ≡ roomy out.now at }
{
    if out.len() < 512 {
        return false;
    }
    at <= out.len() - 512
}

// The answer to an accepted call, of what it leaves of a table and of its counts: no calendar is read. Without room nothing is written.
pub fn print_call(
    out: &mut [u8],
    at: usize,
    letter: u8,
    kind: Kind,
    date: u16,
    entered: u16,
    left: u16,
    given: u16,
    maturities: [Maturity; 15],
) -> usize
    ensures { Printed out.old out.new at result (call_text letter kind date entered left given maturities) }
{
    if !has_room(out, at) {
        return at;
    }
    put_call(
        out, at, letter, kind, date, entered, left, given, maturities,
    )
}

// The answer to an accepted call. Without room nothing is written.
pub fn print_outcome(out: &mut [u8], at: usize, letter: u8, o: Outcome) -> usize
    ensures { Printed out.old out.new at result (outcome_text letter o) }
{
    let t = o.table;
    let p = t.product;
    let kind = p.kind;
    let maturities = t.maturities;
    print_call(
        out, at, letter, kind, t.date, o.entered, o.left, t.given, maturities,
    )
}

// The answer to a refused call. Without room nothing is written.
pub fn print_refusal(out: &mut [u8], at: usize, number: u8) -> usize
    ensures { Printed out.old out.new at result (refusal_text number) }
{
    if !has_room(out, at) {
        return at;
    }
    put_refusal(out, at, number)
}

// The answer to another line. Without room nothing is written.
pub fn print_bad(out: &mut [u8], at: usize) -> usize
    ensures { Printed out.old out.new at result bad_text }
{
    if !has_room(out, at) {
        return at;
    }
    put_bad(out, at)
}
