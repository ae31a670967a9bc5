// A line of standard input into lent lists, and what is told of it.
#![tactic(auto)]

ghost use Rattle.std.specs.Prelude.{◌≡◌};
ghost use Rattle.session_lines.specs.CommandLines.{empty_line};
ghost use Rattle.file_text_print.specs.Contents.{LineWith};
ghost use Rattle.delivery_receipts.specs.Receiving.{told_of};
ghost use Rattle.delivery_inputs.specs.ReconcileInputs.{bad_row_text, bad_rows_text, bad_count, RowIn};

use delivery_items::LongLine;
use delivery_receipts::Receiving;
use session_lines::Line;

// What a line brought: what was received, how many lines were bad, at most 999,999,999, and what is told of the line.
#[derive(Clone, Copy)]
pub struct RowTaken {
    pub state: Receiving,
    pub bad: u32,
    pub told: Line,
}

// The line that tells a bad line by its number.
pub fn bad_row_line(line: u32) -> Line
    ensures { LineWith empty_line (bad_row_text line) result }
{
    let name = session_lines::feed(session_lines::empty_line(), b"standard input:");
    let number = delivery_answers::with_number(name, line as u64);
    session_lines::feed(number, b": BAD\n")
}

// What is told of a line by its number where it is bad; nothing of any other, which has 0 here.
fn told_line(number: u32) -> Line
    ensures { LineWith empty_line (bad_rows_text (told_of number)) result }
{
    if number == 0 {
        return session_lines::empty_line();
    }
    bad_row_line(number)
}

// How many bad lines there are after a line, which has a number here where it is bad, else 0.
fn bad_count(bad: u32, number: u32) -> u32
    ensures { result ≡ bad_count bad number }
{
    if number == 0 {
        return bad;
    }
    file_text_read::next_line(bad)
}

// One line more. A good row goes to six lists, and a bad line is told.
pub fn take_row(
    file: &[u8],
    state: Receiving,
    bad: u32,
    line: LongLine,
    ids: &mut [u8],
    keys: &mut [u16],
    days: &mut [u16],
    fulls: &mut [u8],
    numbers: &mut [u16],
    backs: &mut [u16],
) -> RowTaken
    ensures { RowIn file.now state bad line (record { ids = ids.old; keys = keys.old; days = days.old; fulls = fulls.old; numbers = numbers.old; backs = backs.old }) (record { ids = ids.new; keys = keys.new; days = days.new; fulls = fulls.new; numbers = numbers.new; backs = backs.new }) result }
{
    let after = delivery_receipts::receive_line(
        file, state, line, ids, keys, days, fulls, numbers, backs,
    );
    let told = told_line(after.bad);
    let count = bad_count(bad, after.bad);
    RowTaken {
        state: after,
        bad: count,
        told,
    }
}
