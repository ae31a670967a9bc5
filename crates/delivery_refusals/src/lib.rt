// The lines that tell what was refused.
#![tactic(auto)]

ghost use Rattle.std.specs.Prelude.{◌≡◌};
ghost use Rattle.file_load.specs.Load.{found};
ghost use Rattle.session_lines.specs.CommandLines.{empty_line};
ghost use Rattle.session_text.specs.TermsText.{decimal};
ghost use Rattle.file_text_print.specs.Contents.{LineWith};
ghost use Rattle.delivery_notices.specs.NoticeLists.{notice_at};
ghost use Rattle.delivery_refusals.specs.Refusals.{notices_at, master_text, bad_notice_text, refused_notice_text, refusal_told, unknown_refusal, refusal_line, unknown_line};

use file_load::Found;
use session_lines::Line;

// A line with a number of up to five digits more.
fn with_number(line: Line, n: u32) -> Line
    ensures { LineWith line (decimal n) result }
{
    if n < 10000 {
        return file_text_print::with_decimal(line, n as u16);
    }
    let first = file_text_print::with_digit(line, (n / 10000 % 10) as u16);
    file_text_print::with_four(first, (n % 10000) as u16)
}

// A file that is refused.
pub fn master_line(refusal: u8) -> Line
    ensures { LineWith empty_line (master_text refusal) result }
{
    let name = file_text_print::with_bytes(session_lines::empty_line(), b"master.bin: NO ");
    let number = file_text_print::with_decimal(name, refusal as u16);
    session_lines::extend(number, b'\n')
}

// A line that begins with the name of the notices and the number of one of their lines.
fn notices_line(line: u32) -> Line
    ensures { LineWith empty_line (notices_at line) result }
{
    with_number(
        file_text_print::with_bytes(session_lines::empty_line(), b"notices.txt:"),
        line,
    )
}

// The first bad line of the notices.
pub fn bad_notice_line(line: u32) -> Line
    ensures { LineWith empty_line (bad_notice_text line) result }
{
    file_text_print::with_bytes(notices_line(line), b": BAD\n")
}

// A refused call.
fn refused_notice_line(line: u32, refusal: u8, id: [u8; 4]) -> Line
    ensures { LineWith empty_line (refused_notice_text line refusal id) result }
{
    let no = file_text_print::with_bytes(notices_line(line), b": NO ");
    let number = file_text_print::with_decimal(no, refusal as u16);
    let whole = file_text_print::with_id(session_lines::extend(number, b' '), id);
    session_lines::extend(whole, b'\n')
}

// A refused call, or a line with no bytes where the number is 0.
pub fn refusal_text(line: u32, refusal: u8, id: [u8; 4]) -> Line
    ensures { LineWith empty_line (refusal_told line refusal id) result }
{
    if refusal == 0 {
        return session_lines::empty_line();
    }
    refused_notice_line(line, refusal, id)
}

// Line i of a product's refused calls: 0 is that of the opening, on a line of the notices, and i that of notice i - 1. One that was accepted has no bytes.
pub fn refusal_line(
    id: [u8; 4],
    opened: u32,
    refusal: u8,
    calls: &[u32],
    refusals: &[u8],
    i: u32,
) -> Line
    ensures { LineWith empty_line (refusal_line id opened refusal calls.now refusals.now i) result }
{
    if i == 0 {
        return refusal_text(opened, refusal, id);
    }
    if refusal != 0 {
        return session_lines::empty_line();
    }
    let at = (i - 1) as usize;
    let line = delivery_tables::call_number(calls, 5 * at);
    refusal_text(line, file_blocks::byte_at(refusals, at), id)
}

// Whether the file has a product with an id.
fn is_found(file: &[u8], id: [u8; 4]) -> bool
    ensures { result ≡ found file.now id }
{
    match file_load::find(file, id) {
        Found::At(_, _) => true,
        Found::Nothing => false,
    }
}

// The refusal of notice i of two lists where it is a measure of an id that the file has not.
fn unknown_refusal(file: &[u8], calls: &[u32], ids: &[u8], i: u32) -> u8
    ensures { result ≡ unknown_refusal file.now (notice_at calls.now ids.now i) }
{
    if delivery_tables::call_number(calls, 5 * (i as usize) + 1) != 3 {
        return 0;
    }
    if is_found(file, delivery_products::id_in(ids, i)) {
        return 0;
    }
    9
}

// Line i of the measures of ids that the file has not. Another notice has no bytes.
pub fn unknown_measure_line(file: &[u8], calls: &[u32], ids: &[u8], i: u32) -> Line
    ensures { LineWith empty_line (unknown_line file.now calls.now ids.now i) result }
{
    let refusal = unknown_refusal(file, calls, ids, i);
    let line = delivery_tables::call_number(calls, 5 * (i as usize));
    refusal_text(line, refusal, delivery_products::id_in(ids, i))
}
