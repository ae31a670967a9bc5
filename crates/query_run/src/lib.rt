// A run of the program `query`: master.bin and notices.txt are read, and the questions of standard input are answered by the tables after the notices.
#![tactic(auto)]

ghost use Rattle.std.specs.Prelude.{◌≡◌, true, false, ◌≤◌, length, take};
ghost use Rattle.session_lines.specs.CommandLines.{empty_line};
ghost use Rattle.file_text_print.specs.Contents.{LineWith};
ghost use Rattle.file_calendar.specs.Calendars.{calendar_answer};
ghost use Rattle.file_load.specs.Load.{judge_call};
ghost use Rattle.streams.specs.Transfers.{Within};
ghost use Rattle.delivery_queries.specs.Queries.{query_told};
ghost use Rattle.query_run.specs.QueryOutcomes.{NothingAnswered, QueryAnswered, query_outcome, QueryRunEnds};

use file_calendar::FileCalendar;
use query_input::QueryEnded;
use session_lines::Line;
use streams::{Input, Sent, Told, Transfer};

// How far standard input was read, what has been written, how much was told of the two files,
// and whether the file or a notice is refused or an answer is `NO n` or `BAD K`.
#[derive(Clone, Copy)]
pub struct QuestionsAnswered {
    pub input: Input,
    pub sent: Sent,
    pub told: Told,
    pub refused: bool,
}

// A run: what was read of master.bin and of notices.txt, what was answered, and the status.
#[derive(Clone, Copy)]
pub struct QueryOutcome {
    pub file: Transfer,
    pub notices: Transfer,
    pub answered: QuestionsAnswered,
    pub status: u8,
}

// What was read of the notices, and what was answered.
#[derive(Clone, Copy)]
struct NoticesRun {
    notices: Transfer,
    answered: QuestionsAnswered,
}

// Tells a line on standard error, which has to be what is told of a file and of notices.
fn tell(rt: HostRuntime, file: &[u8], text: &[u8], line: Line) -> Told
    requires { LineWith empty_line (query_told file.now text.now) line }
    ensures { result.bytes ≡ length (query_told file.now text.now) }
{
    let bytes = line.bytes;
    let n = line.length;
    streams::tell_next(rt, streams::nothing_told(), &bytes[..n])
}

// A run that reads nothing of standard input and writes nothing.
fn nothing_answered(told: Told, refused: bool) -> QuestionsAnswered
    ensures { NothingAnswered result × (result.told ≡ told) × (result.refused ≡ refused) }
{
    let input = streams::nothing_read();
    let sent = streams::nothing_sent();
    QuestionsAnswered {
        input,
        sent,
        told,
        refused,
    }
}

// A run that answers the questions, and tells nothing of the two files.
fn questions_answered(ended: QueryEnded) -> QuestionsAnswered
    ensures { (result.input ≡ ended.input) × (result.sent ≡ ended.sent) × (result.told.bytes ≡ 0) × (result.refused ≡ ended.refused) }
{
    let input = ended.input;
    let sent = ended.sent;
    let told = streams::nothing_told();
    QuestionsAnswered {
        input,
        sent,
        told,
        refused: ended.refused,
    }
}

// What a file with its verdict and a text of notices give: a refused file and a bad line are told; without them the questions are answered.
fn answer(
    rt: HostRuntime,
    file: &[u8],
    judged: FileCalendar,
    text: &[u8],
    calls: &mut [u32],
    ids: &mut [u8],
    refusals: &mut [u8],
) -> QuestionsAnswered
    requires { (calendar_answer judged ≡ judge_call file.now) × (32770 ≤ length calls.old) × (26216 ≤ length ids.old) × (65538 ≤ length refusals.old) }
    ensures { QueryAnswered file.now text.now result }
{
    if judged.refusal != 0 {
        let line = delivery_refusals::master_line(judged.refusal);
        return nothing_answered(tell(rt, file, text, line), true);
    }
    let t = delivery_notices::read_notices(text, calls, ids);
    if t.bad != 0 {
        let line = delivery_refusals::bad_notice_line(t.bad);
        return nothing_answered(tell(rt, file, text, line), true);
    }
    let ended = query_input::answer_input(rt, file, judged, t, calls, ids, refusals);
    questions_answered(ended)
}

// The notices, which are read where the file is accepted. Of those that cannot be read the system's reason is told.
fn notices_of(rt: HostRuntime, refusal: u8, text: &mut [u8]) -> Transfer
    ensures { Within result text.new }
{
    if refusal != 0 {
        return nothing_moved();
    }
    streams::read_file_or_tell(rt, b"query: notices.txt", b"notices.txt", text)
}

// A file that was not read.
fn nothing_moved() -> Transfer
    ensures { (result.failed ≡ false) × (result.length ≡ 0) }
{
    Transfer {
        failed: false,
        length: 0,
    }
}

// The file is judged first, and once; then the notices are read. Where they cannot be read nothing is answered.
fn judged(
    rt: HostRuntime,
    file: &[u8],
    text: &mut [u8],
    calls: &mut [u32],
    ids: &mut [u8],
    refusals: &mut [u8],
) -> NoticesRun
    requires { (32770 ≤ length calls.old) × (26216 ≤ length ids.old) × (65538 ≤ length refusals.old) }
    ensures { (result.notices.length ≤ length text.new) × (result.notices.failed ≡ true → NothingAnswered result.answered × (result.answered.told.bytes ≡ 0)) × (result.notices.failed ≡ false → QueryAnswered file.now (take result.notices.length text.new) result.answered) }
{
    let judged = file_load::judge(file);
    let notices = notices_of(rt, judged.refusal, text);
    if notices.failed {
        let answered = nothing_answered(streams::nothing_told(), false);
        return NoticesRun { notices, answered };
    }
    let n = notices.length;
    let answered = answer(rt, file, judged, &text[..n], calls, ids, refusals);
    NoticesRun { notices, answered }
}

// A run with its status: whether a file or standard input could not be read or the output did not take all, and whether something is refused or bad.
fn outcome(file: Transfer, notices: Transfer, answered: QuestionsAnswered) -> QueryOutcome
    ensures { result ≡ query_outcome file notices answered }
{
    let input = answered.input;
    let sent = answered.sent;
    let failed = file.failed
        | (notices.failed | (streams::has_failed(input) | !streams::is_open(sent)));
    let status = program_status::status(failed, answered.refused);
    QueryOutcome {
        file,
        notices,
        answered,
        status,
    }
}

// A run of the program. A file that cannot be read is told, with the system's reason, and ends it.
pub fn run(rt: HostRuntime) -> QueryOutcome
    ensures { QueryRunEnds result }
{
    let mut bytes = [0u8; 65537];
    let mut text = [0u8; 65537];
    let mut calls = [0u32; 32770];
    let mut ids = [0u8; 26216];
    let mut refusals = [0u8; 65538];
    let file = streams::read_file_or_tell(rt, b"query: master.bin", b"master.bin", &mut bytes);
    if file.failed {
        let notices = nothing_moved();
        let answered = nothing_answered(streams::nothing_told(), false);
        return outcome(file, notices, answered);
    }
    let n = file.length;
    let j = judged(
        rt,
        &bytes[..n],
        &mut text,
        &mut calls,
        &mut ids,
        &mut refusals,
    );
    outcome(file, j.notices, j.answered)
}
