// A line of a master file's text as it stands there: blanks at its end, a mark before the first, comments and empty lines.
#![tactic(auto)]

ghost use Rattle.std.specs.Prelude.{◌≡◌, ◌≤◌, length, take};
ghost use Rattle.file_text_stripped.specs.Said.{nothing_entry, text_said, bare_text, shown_text, held_said};

use calendar::Cover;
use delivery_items::LongLine;
use file_text_lines::Entry;

// A line that says nothing.
fn nothing_entry() -> Entry
    ensures { result ≡ nothing_entry }
{
    Entry {
        letter: b'#',
        cover: Cover {
            first_year: 0,
            years: 0,
        },
        seed: 0,
        day: 0,
        record: [0; 32],
    }
}

// What a line says that has neither blanks at its end nor a mark.
fn text_said(text: &[u8]) -> Entry
    ensures { result ≡ text_said text.now }
{
    if text.len() == 0 {
        return nothing_entry();
    }
    if text[0] == b'#' {
        return nothing_entry();
    }
    let line = session_lines::feed(session_lines::empty_line(), text);
    file_text_lines::entry_of(line)
}

// A line without the mark, where it is the first.
fn bare_text(first: bool, text: &[u8]) -> &[u8]
    ensures { result.now ≡ bare_text first text.now }
{
    if first {
        let mark = delivery_lines::mark_length(text);
        return &text[mark..];
    }
    text
}

// How many bytes of a line are held that are not blanks at its end.
fn shown_length(line: LongLine) -> usize
    ensures { (result ≤ 255) × (take result line.bytes ≡ shown_text line) }
{
    let n = delivery_items::held_length(line);
    if line.over {
        return n;
    }
    let bytes = line.bytes;
    delivery_lines::trimmed_length(&bytes[..n])
}

// What a line says, as it is held, the first of the text or another.
pub fn held_entry(first: bool, line: LongLine) -> Entry
    ensures { result ≡ held_said first line }
{
    let n = shown_length(line);
    let bytes = line.bytes;
    text_said(bare_text(first, &bytes[..n]))
}
