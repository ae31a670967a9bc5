// What `query` answers, in lines of at most 64 bytes: what stands after a question, and the line of a bad one.
#![tactic(auto)]

ghost use Rattle.std.specs.Prelude.{◌≡◌, ◌<◌};
ghost use Rattle.session_lines.specs.CommandLines.{empty_line};
ghost use Rattle.file_text_print.specs.Contents.{LineWith};
ghost use Rattle.table_values.specs.Values.{last_day_reply, day_reply};
ghost use Rattle.table_prices.specs.TablePrices.{cash_reply};
ghost use Rattle.delivery_answers.specs.Numbers.{in_eight_digits, decimal_short, number_text};
ghost use Rattle.delivery_answers.specs.Replies.{no_text, last_day_text, due_text, tick_text, sign_text, amount_text, cash_text, size_text, other_sort, bad_question_text, held_text, held_reply, reply_line, held_misfits};

use amounts::Amount;
use delivery_questions::QuestionLine;
use session_lines::Line;
use table::Table;
use table_prices::CashReply;
use table_values::{DayReply, LastDayReply};

// What is known of the product with an id: whether the file has it, whether it is a weekly one,
// the number of its refused opening, 0 where it has a table, and the table.
#[derive(Clone, Copy)]
pub struct Standing {
    pub known: bool,
    pub weekly: bool,
    pub refusal: u8,
    pub table: Table,
}

// A line with a number in eight digits more.
fn with_eight(line: Line, n: u32) -> Line
    requires { n < 100000000 }
    ensures { LineWith line (in_eight_digits n) result }
{
    let first = file_text_print::with_four(line, (n / 10000) as u16);
    file_text_print::with_four(first, (n % 10000) as u16)
}

// A line with a number of at most eight digits more, with no zeros before it.
fn with_short(line: Line, n: u32) -> Line
    requires { n < 100000000 }
    ensures { LineWith line (decimal_short n) result }
{
    if n < 10000 {
        return file_text_print::with_decimal(line, n as u16);
    }
    let first = file_text_print::with_decimal(line, (n / 10000) as u16);
    file_text_print::with_four(first, (n % 10000) as u16)
}

// A line with a number more, with no zeros before it.
pub fn with_number(line: Line, n: u64) -> Line
    ensures { LineWith line (number_text n) result }
{
    if n < 100000000 {
        return with_short(line, n as u32);
    }
    let upper = n / 100000000;
    let rest = (n % 100000000) as u32;
    if upper < 100000000 {
        return with_eight(with_short(line, upper as u32), rest);
    }
    let top = with_short(line, (upper / 100000000) as u32);
    with_eight(with_eight(top, (upper % 100000000) as u32), rest)
}

// A line with `NO` and a number more.
fn with_no(line: Line, number: u8) -> Line
    ensures { LineWith line (no_text number) result }
{
    file_text_print::with_spaced(session_lines::feed(line, b"NO"), number as u16)
}

// A line with a last trading day more.
fn with_last(line: Line, reply: LastDayReply) -> Line
    ensures { LineWith line (last_day_text (last_day_reply reply)) result }
{
    if reply.refusal != 0 {
        return with_no(line, reply.refusal);
    }
    file_text_print::with_spaced(file_text_print::with_day(line, reply.day), reply.back)
}

// A line with a due day more.
fn with_due(line: Line, reply: DayReply) -> Line
    ensures { LineWith line (due_text (day_reply reply)) result }
{
    if reply.refusal != 0 {
        return with_no(line, reply.refusal);
    }
    file_text_print::with_day(line, reply.day)
}

// A line with `OK` more, or with the number of a refused price.
fn with_tick(line: Line, refusal: u8) -> Line
    ensures { LineWith line (tick_text refusal) result }
{
    if refusal != 0 {
        return with_no(line, refusal);
    }
    session_lines::feed(line, b"OK")
}

// A line with a minus more, of a negative amount.
fn with_sign(line: Line, negative: bool) -> Line
    ensures { LineWith line (sign_text negative) result }
{
    if negative {
        return session_lines::extend(line, b'-');
    }
    line
}

// A line with an amount more.
fn with_amount(line: Line, a: Amount) -> Line
    ensures { LineWith line (amount_text a) result }
{
    let sign = with_sign(line, a.negative);
    let whole = with_number(sign, a.amount / 10000);
    let point = session_lines::extend(whole, b'.');
    let parts = file_text_print::with_four(point, (a.amount % 10000) as u16);
    file_text_print::with_four(parts, a.rest)
}

// A line with cash more.
fn with_cash(line: Line, reply: CashReply) -> Line
    ensures { LineWith line (cash_text (cash_reply reply)) result }
{
    if reply.refusal != 0 {
        return with_no(line, reply.refusal);
    }
    let cash = reply.cash;
    with_amount(line, cash)
}

// A line with a size more.
fn with_size(line: Line, size: u32) -> Line
    ensures { LineWith line (size_text size) result }
{
    let whole = with_number(line, (size / 10000) as u64);
    file_text_print::with_part(whole, (size % 10000) as u16)
}

// A line with the answer of a table to a question more.
fn with_answer(line: Line, t: Table, q: QuestionLine) -> Line
    ensures { LineWith line (held_text t q) result }
{
    if q.letter == b'l' {
        return with_last(line, table_values::last_trading_day(t, q.day));
    }
    if q.letter == b'd' {
        return with_due(line, table_values::due(t, q.day));
    }
    if q.letter == b't' {
        return with_tick(line, table_prices::tick(t, q.number));
    }
    if q.letter == b'c' {
        return with_cash(
            line,
            table_prices::cash(t, q.number, q.agreed, q.final_price),
        );
    }
    let p = t.product;
    with_size(line, p.size)
}

// A line with the answer to a question more.
fn with_reply(line: Line, s: Standing, q: QuestionLine) -> Line
    ensures { LineWith line (held_reply s q) result }
{
    if !s.known {
        return with_no(line, 9);
    }
    if s.refusal != 0 {
        return with_no(line, s.refusal);
    }
    let t = s.table;
    with_answer(line, t, q)
}

// What stands after a line with a question.
pub fn reply_line(s: Standing, q: QuestionLine) -> Line
    ensures { LineWith empty_line (reply_line s q) result }
{
    let space = session_lines::extend(session_lines::empty_line(), b' ');
    let reply = with_reply(space, s, q);
    session_lines::extend(reply, b'\n')
}

// Whether a maturity is named in the form of the other sort.
fn is_other_sort(friday: bool, weekly: bool) -> bool
    ensures { result ≡ other_sort friday weekly }
{
    if friday {
        return !weekly;
    }
    weekly
}

// Whether a question for a last trading day names the maturity in the form of the other sort.
pub fn is_misfit(s: Standing, q: QuestionLine) -> bool
    ensures { result ≡ held_misfits s q }
{
    if q.letter != b'l' {
        return false;
    }
    if !s.known {
        return false;
    }
    is_other_sort(q.friday, s.weekly)
}

// The line that says that a line is bad.
pub fn bad_question_line(k: u64) -> Line
    ensures { LineWith empty_line (bad_question_text k) result }
{
    let bad = session_lines::feed(session_lines::empty_line(), b"BAD ");
    session_lines::extend(with_number(bad, k), b'\n')
}
