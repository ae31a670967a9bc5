// What `compose` says on standard error: `BAD k`, or `NO n` and where.
#![tactic(auto)]

ghost use Rattle.std.specs.Prelude.{◌≡◌};
ghost use Rattle.session_lines.specs.CommandLines.{empty_line};
ghost use Rattle.file_text_print.specs.Contents.{LineWith};
ghost use Rattle.file_text_told.specs.ComposeTexts.{bad_entry_text, at_line_text, from_text, at_product_text, where_text, refused_file_text, said_text};

use file_text_faults::Fault;
use file_text_read::Composed;
use session_lines::Line;

// The number of the first line that is none of a list's.
fn bad_entry_line(line: u32) -> Line
    ensures { LineWith empty_line (bad_entry_text line) result }
{
    let begun = file_text_print::with_bytes(session_lines::empty_line(), b"BAD ");
    let whole = delivery_answers::with_number(begun, line as u64);
    session_lines::extend(whole, b'\n')
}

// A line with the number of a line more.
fn with_line(begun: Line, line: u32) -> Line
    ensures { LineWith begun (at_line_text line) result }
{
    delivery_answers::with_number(file_text_print::with_bytes(begun, b" line "), line as u64)
}

// A line with the first day of a run more.
fn with_from(begun: Line, day: u16) -> Line
    ensures { LineWith begun (from_text day) result }
{
    file_text_print::with_day(file_text_print::with_bytes(begun, b" from "), day)
}

// A line with the id of a product more; none with 5, which is about days.
fn with_product(begun: Line, refusal: u8, id: [u8; 4]) -> Line
    ensures { LineWith begun (at_product_text refusal id) result }
{
    if refusal == 5 {
        return begun;
    }
    file_text_print::with_id(session_lines::extend(begun, b' '), id)
}

// A line with the place of what is refused more.
fn with_where(begun: Line, refusal: u8, fault: Fault, day: u16) -> Line
    ensures { LineWith begun (where_text refusal fault day) result }
{
    if refusal == 6 {
        return with_from(begun, day);
    }
    if !((refusal == 5) | ((refusal == 7) | (refusal == 8))) {
        return begun;
    }
    let id = fault.id;
    with_product(with_line(begun, fault.line), refusal, id)
}

// A refusal and where.
fn no_line(refusal: u8, fault: Fault, day: u16) -> Line
    ensures { LineWith empty_line (refused_file_text refusal fault day) result }
{
    let no = file_text_print::with_bytes(session_lines::empty_line(), b"NO");
    let number = file_text_print::with_spaced(no, refusal as u16);
    let whole = with_where(number, refusal, fault, day);
    session_lines::extend(whole, b'\n')
}

// What is said; a line with no bytes where there is a file.
pub fn said(c: Composed) -> Line
    ensures { LineWith empty_line (said_text c) result }
{
    if c.bad != 0 {
        return bad_entry_line(c.bad);
    }
    if c.refusal != 0 {
        let fault = c.fault;
        return no_line(c.refusal, fault, c.day);
    }
    session_lines::empty_line()
}
