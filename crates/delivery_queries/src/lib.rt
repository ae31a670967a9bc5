// What `query` answers to one line, in a lent buffer.
#![tactic(auto)]

ghost use Rattle.std.specs.Prelude.{◌≡◌, true, cond, ◌&&◌, ◌+◌, ◌≤◌, length, take, Some, None};
ghost use Rattle.product.specs.Fields.{is_weekly};
ghost use Rattle.file_load.specs.Load.{found, product_of};
ghost use Rattle.session_text.specs.Buffer.{Written, Printed, roomy};
ghost use Rattle.delivery_lines.specs.NoticeLines.{trimmed};
ghost use Rattle.delivery_questions.specs.QuestionLines.{asked_held};
ghost use Rattle.delivery_answers.specs.Replies.{bad_question_text};
ghost use Rattle.delivery_queries.specs.Queries.{standing_in, long_asked, long_text, held_answer, long_refused, held_refused};

use delivery_answers::Standing;
use delivery_items::LongLine;
use delivery_notices::NoticesTaken;
use delivery_questions::QuestionLine;
use file_calendar::FileCalendar;
use file_load::Found;
use session_lines::Line;

// The place after an answer in a buffer, and whether the answer is `NO n` or `BAD K`.
#[derive(Clone, Copy)]
pub struct LineAnswer {
    pub next: usize,
    pub refused: bool,
}

// Whether the product with an id is a weekly one; none where the file has no product with the id.
fn weekly_in(file: &[u8], id: [u8; 4]) -> Option<bool>
    ensures { result ≡ cond (found file.now id) (Some (is_weekly (product_of file.now id).kind)) None }
{
    match file_load::find(file, id) {
        Found::At(block, record) => {
            let p = file_load::product_at(file, block, record);
            let kind = p.kind;
            Some(product::is_weekly(kind))
        }
        Found::Nothing => None,
    }
}

// What is known of the product with an id after the notices of two lists. The file's verdict by `judge` is at hand.
// A lent buffer takes a byte for each notice; where it has no room for them no notice is taken.
pub fn standing(
    file: &[u8],
    judged: FileCalendar,
    t: NoticesTaken,
    calls: &[u32],
    ids: &[u8],
    refusals: &mut [u8],
    id: [u8; 4],
) -> Standing
    ensures { result ≡ standing_in judged file.now t calls.now ids.now (length refusals.old) id }
{
    let weekly = weekly_in(file, id);
    let d = delivery_tables::deliver(file, judged, id, t.date, calls, ids, t.count, refusals);
    let table = d.table;
    Standing {
        known: weekly.is_some(),
        weekly: weekly.unwrap_or(false),
        refusal: d.refusal,
        table,
    }
}

// What a line asks, as it is held.
pub fn held_asks(line: LongLine) -> QuestionLine
    ensures { result ≡ asked_held (long_asked line) }
{
    let bytes = line.bytes;
    if line.over {
        if bytes[0] == b'#' {
            return delivery_questions::bare_held(b'#');
        }
        return delivery_questions::bare_held(0);
    }
    let n = delivery_items::held_length(line);
    delivery_questions::question_of(&bytes[..n])
}

// Bytes from a place of a buffer on, and the place after them.
fn put_bytes(out: &mut [u8], at: usize, bytes: &[u8]) -> usize
    requires { at + length bytes.now ≤ length out.old }
    ensures { Written out.old out.new at result bytes.now }
{
    let end = at + bytes.len();
    out[at..end].copy_from_slice(bytes);
    end
}

// The bytes of a line.
fn put_line(out: &mut [u8], at: usize, line: Line) -> usize
    requires { (line.length ≤ 64) × (at + 64 ≤ length out.old) }
    ensures { Written out.old out.new at result (take line.length line.bytes) }
{
    let bytes = line.bytes;
    let n = line.length;
    put_bytes(out, at, &bytes[..n])
}

// The bytes of a line as it is held, without the blanks at its end.
fn put_held(out: &mut [u8], at: usize, line: LongLine) -> usize
    requires { at + 255 ≤ length out.old }
    ensures { Written out.old out.new at result (trimmed (take line.length line.bytes)) × (result ≤ at + 255) }
{
    let bytes = line.bytes;
    let n = delivery_items::held_length(line);
    let end = delivery_lines::trimmed_length(&bytes[..n]);
    put_bytes(out, at, &bytes[..end])
}

// The line that says that a line is bad.
fn put_bad(out: &mut [u8], at: usize, number: u64) -> usize
    requires { at + 64 ≤ length out.old }
    ensures { Written out.old out.new at result (bad_question_text number) × (result ≤ at + 64) }
{
    put_line(out, at, delivery_answers::bad_question_line(number))
}

// The answer to a line with a question about a product of which this is known.
fn put_answer(
    out: &mut [u8],
    at: usize,
    number: u64,
    line: LongLine,
    s: Standing,
    q: QuestionLine,
) -> LineAnswer
    requires { at + 512 ≤ length out.old }
    ensures { Written out.old out.new at result.next (held_answer s number (trimmed (take line.length line.bytes)) q) × (result.next ≤ at + 512) × (result.refused ≡ held_refused s q) }
{
    if delivery_answers::is_misfit(s, q) {
        let next = put_bad(out, at, number);
        return LineAnswer {
            next,
            refused: true,
        };
    }
    let held = put_held(out, at, line);
    let reply = delivery_answers::reply_line(s, q);
    let bytes = reply.bytes;
    let refused = bytes[1] == b'N';
    let next = put_line(out, held, reply);
    LineAnswer { next, refused }
}

// Whether a buffer has room for any answer.
fn has_room(out: &[u8], at: usize) -> bool
    ensures { result ≡ roomy out.now at }
{
    if out.len() < 512 {
        return false;
    }
    at <= out.len() - 512
}

// The answer to a line with a number, as it is held, from a place of a lent buffer on. Without room for 512 bytes nothing is written.
pub fn answer_line(
    file: &[u8],
    judged: FileCalendar,
    t: NoticesTaken,
    calls: &[u32],
    ids: &[u8],
    refusals: &mut [u8],
    number: u64,
    line: LongLine,
    out: &mut [u8],
    at: usize,
) -> LineAnswer
    ensures { Printed out.old out.new at result.next (long_text (standing_in judged file.now t calls.now ids.now (length refusals.old)) number line) × (result.refused ≡ (roomy out.old at && long_refused (standing_in judged file.now t calls.now ids.now (length refusals.old)) line)) }
{
    if !has_room(out, at) {
        return LineAnswer {
            next: at,
            refused: false,
        };
    }
    let q = held_asks(line);
    if q.letter == b'#' {
        return LineAnswer {
            next: at,
            refused: false,
        };
    }
    if q.letter == 0 {
        let next = put_bad(out, at, number);
        return LineAnswer {
            next,
            refused: true,
        };
    }
    let id = q.id;
    let s = standing(file, judged, t, calls, ids, refusals, id);
    put_answer(out, at, number, line, s, q)
}
