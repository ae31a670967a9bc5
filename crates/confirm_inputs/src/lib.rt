// The whole input of the program `confirm`, and the line that it prints.
#![tactic(auto)]

ghost use Rattle.std.specs.Prelude.{◌≡◌, [], ◌+◌, ◌≤◌, length, take};
ghost use Rattle.session_lines.specs.CommandLines.{empty_line, lines_from};
ghost use Rattle.table_vendor.specs.Vendor.{verdict_answer};
ghost use Rattle.confirm_lines.specs.ListingLines.{no_listing};
ghost use Rattle.file_text_print.specs.Contents.{LineWith};
ghost use Rattle.confirm_inputs.specs.ConfirmInputs.{yes_text, differs_text, refused_text, bad_input_text, judged_text, end_text, input_lines_text, is_yes};
ghost use Rattle.confirm_inputs.specs.InputReading.{said_in, EntryPut};

use confirm_lines::{ListingEntry, ListingSoFar};
use product::Kind;
use session_lines::Line;
use table_vendor::Verdict;

// The listing is the table's.
fn yes_line() -> Line
    ensures { LineWith empty_line yes_text result }
{
    session_lines::feed(session_lines::empty_line(), b"YES\n")
}

// The smallest month, or Friday, that differs.
fn differs_line(kind: Kind, key: u16) -> Line
    ensures { LineWith empty_line (differs_text kind key) result }
{
    let word = session_lines::feed(session_lines::empty_line(), b"DIFFERS ");
    session_lines::extend(file_text_print::with_name(word, kind, key), b'\n')
}

// A call was refused.
fn refused_line(number: u8) -> Line
    ensures { LineWith empty_line (refused_text number) result }
{
    let word = session_lines::feed(session_lines::empty_line(), b"REFUSED ");
    session_lines::extend(file_text_print::with_decimal(word, number as u16), b'\n')
}

// A line is no line of the input's form.
fn bad_input_line(number: u16) -> Line
    ensures { LineWith empty_line (bad_input_text number) result }
{
    let word = session_lines::feed(session_lines::empty_line(), b"BAD ");
    session_lines::extend(file_text_print::with_decimal(word, number), b'\n')
}

// What is said of a listing.
fn judged_line(kind: Kind, verdict: Verdict) -> Line
    ensures { LineWith empty_line (judged_text kind (verdict_answer verdict)) result }
{
    match verdict {
        Ok(None) => yes_line(),
        Ok(Some(key)) => differs_line(kind, key),
        Err(refusal) => refused_line(refusal.number()),
    }
}

// The end of an input: the first numbers of the list are its listing's.
fn end_line(s: ListingSoFar, list: &[u16], count: usize) -> Line
    requires { count ≤ length list.now }
    ensures { LineWith empty_line (end_text s (take count list.now)) result }
{
    if !s.opened {
        return bad_input_line(1);
    }
    let t = s.table;
    let p = t.product;
    let kind = p.kind;
    judged_line(kind, table_vendor::judge(t, &list[..count]))
}

// Puts the numbers of an entry, where a line had one, at a place of the list, and answers the place after them.
fn put_entry(list: &mut [u16], at: usize, entry: Option<ListingEntry>) -> usize
    requires { at + 2 ≤ length list.old }
    ensures { EntryPut entry at list.old list.new result }
{
    let Some(entry) = entry else {
        return at;
    };
    list[at] = entry.key;
    list[at + 1] = entry.day;
    at + 2
}

// All lines of a text, up to the first that is bad or refused; where it is too long, its last line is bad.
fn read_lines(file: &[u8], text: &[u8], long: bool, list: &mut [u16]) -> Line
    requires { (length text.now ≤ 65537) × (6900 ≤ length list.old) }
    ensures { LineWith empty_line (input_lines_text long file.now 0 no_listing [] (lines_from [] text.now)) result }
{
    let mut s = confirm_lines::no_listing();
    let mut from: usize = 0;
    let mut count: usize = 0;
    let mut number: u16 = 0;
    while from < text.len() {
        let end = session_lines::byte_from(text, from, b'\n');
        let cut = long & (text.len() <= end + 1);
        number += 1;
        s = confirm_lines::read_listing_line(file, s, &text[from..end]);
        if s.bad | cut {
            return bad_input_line(number);
        }
        if s.refusal != 0 {
            return refused_line(s.refusal);
        }
        let entry = s.entry;
        count = put_entry(list, count, entry);
        from = end + 1;
    }
    end_line(s, list, count)
}

// The line that is printed for an input, with its line feed; the numbers of its listing stand in a lent list of 6,900 places or more.
// Where the list is shorter nothing is said.
pub fn confirm_line(file: &[u8], input: &[u8], list: &mut [u16]) -> Line
    ensures { LineWith empty_line (said_in (length list.old) file.now input.now) result }
{
    if list.len() < 6900 {
        return session_lines::empty_line();
    }
    let n = delivery_notices::read_length(input.len());
    read_lines(file, &input[..n], 65536 < input.len(), list)
}

// Whether a line, with its line feed, is `YES`.
pub fn is_yes(line: &[u8]) -> bool
    ensures { result ≡ is_yes line.now }
{
    if line.len() != 4 {
        return false;
    }
    (line[0] == b'Y') & ((line[1] == b'E') & ((line[2] == b'S') & (line[3] == b'\n')))
}
