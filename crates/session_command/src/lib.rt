// A command to its answer and the table that is kept.
#![tactic(auto)]

ghost use Rattle.std.specs.Prelude.{◌≡◌, true, ◌&&◌, cond, eqb};
ghost use Rattle.product.specs.Fields.{product_right};
ghost use Rattle.file_calendar.specs.Calendars.{calendar_answer};
ghost use Rattle.table.specs.Table.{sound, open_in};
ghost use Rattle.session_lines.specs.CommandLines.{line_command};
ghost use Rattle.session_text.specs.Buffer.{Printed};
ghost use Rattle.session_command.specs.Sessions.{nothing_kept, bad, outcome_of, answer_text, kept_after};

use file_calendar::FileCalendar;
use product::Product;
use session_lines::{Command, Line};
use table::{Outcome, Table};

// Whether an O has been accepted, the table of the last accepted call, and whether an answer was `NO n` or `BAD`.
#[derive(Clone, Copy)]
pub struct Kept {
    pub opened: bool,
    pub table: Table,
    pub refused: bool,
}

// What is kept after a line, and the place in the buffer after its answer.
#[derive(Clone, Copy)]
pub struct Answered {
    pub kept: Kept,
    pub at: usize,
}

// What is kept before the first command.
pub fn nothing_kept() -> Kept
    ensures { result ≡ nothing_kept }
{
    let table = table::zero_table();
    Kept {
        opened: false,
        table,
        refused: false,
    }
}

// Another line, or R or C before an accepted O.
pub fn is_bad(opened: bool, letter: u8) -> bool
    ensures { result ≡ bad opened letter }
{
    (letter == 0) | ((letter != b'O') & !opened)
}

// The call of a command, where the verdict on the file and the answer to question 10 of the table are at hand.
pub fn outcome_known(file: &[u8], judged: FileCalendar, t: Table, ten: bool, c: Command) -> Outcome
    ensures { ten ≡ sound t → result ≡ outcome_of (open_in (calendar_answer judged) file.now) t c }
{
    let letter = c.letter;
    let id = c.id;
    let day = c.day;
    if letter == b'O' {
        return table::open_in(file, judged, id, day);
    }
    if !ten {
        return table::refused(t, 10);
    }
    if letter == b'R' {
        return t.roll_sound(day);
    }
    t.close_sound(day)
}

// Question 10 of the table of an accepted call: a roll and a close leave a sound one, an open does where the calendar and the product are right.
pub fn leaves_sound(letter: u8, right: bool, product: Product) -> bool
    ensures { result ≡ cond (eqb letter 79) (right && product_right product) true }
{
    if letter != b'O' {
        return true;
    }
    if !right {
        return false;
    }
    product::product_right(product)
}

// The answer to a line, in a lent buffer from a place on, and what is kept after it. The verdict on the file is at hand.
pub fn answer(
    file: &[u8],
    judged: FileCalendar,
    kept: Kept,
    line: Line,
    out: &mut [u8],
    at: usize,
) -> Answered
    ensures { (result.kept ≡ kept_after (open_in (calendar_answer judged) file.now) kept (line_command line)) × Printed out.old out.new at result.at (answer_text (open_in (calendar_answer judged) file.now) kept (line_command line)) }
{
    let c = session_lines::command_of(line);
    let t = kept.table;
    if is_bad(kept.opened, c.letter) {
        let next = session_text::print_bad(out, at);
        return Answered {
            kept: Kept {
                opened: kept.opened,
                table: t,
                refused: true,
            },
            at: next,
        };
    }
    let ten = table::is_sound(t);
    let o = outcome_known(file, judged, t, ten, c);
    let refusal = o.refusal;
    if refusal != 0 {
        let next = session_text::print_refusal(out, at, refusal);
        return Answered {
            kept: Kept {
                opened: kept.opened,
                table: t,
                refused: true,
            },
            at: next,
        };
    }
    let next = session_text::print_outcome(out, at, c.letter, o);
    let table = o.table;
    Answered {
        kept: Kept {
            opened: true,
            table,
            refused: kept.refused,
        },
        at: next,
    }
}
