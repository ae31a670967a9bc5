// A run of `decompose`: reads a master file from standard input and prints its text, or the number of its refusal.
#![tactic(auto)]

mod output;

ghost use Rattle.std.specs.Prelude.{◌≡◌, true, ◌≤◌, length};
ghost use Rattle.file_calendar.specs.Calendars.{calendar_of};
ghost use Rattle.file_load.specs.Load.{load_call};
ghost use Rattle.file_text_print.specs.WholeText.{decompose_text};
ghost use Rattle.program_runs.specs.AnsweredRuns.{RunAnswered};
ghost use Rattle.decompose_run.specs.DecomposeRefusals.{decompose_refused};

use calendar::Calendar;
use program_runs::{AnswerOutcome, Said};
use streams::Sent;

// Writes the text of an accepted file with this calendar, part by part. A write that fails ends the run.
fn write_text(rt: HostRuntime, cal: Calendar, file: &[u8], out: &mut [u8]) -> Sent
    requires { (64 ≤ length out.old) × (length file.now ≤ 65537) × ((load_call file.now).refusal ≡ 0) × (cal ≡ calendar_of file.now) }
    ensures { result.open ≡ true → result.bytes ≡ length (decompose_text file.now) }
{
    let count = file_text_print::line_count(cal, file);
    let mut sent = streams::nothing_sent();
    let mut next: usize = 0;
    while next < count {
        let p = file_text_print::print_lines(cal, file, next, out);
        next = p.next;
        sent = output::write_out(rt, sent, file, out, p.length);
        if !streams::is_open(sent) {
            return sent;
        }
    }
    sent
}

// Writes the refusal of a file.
fn write_refusal(rt: HostRuntime, refusal: u8, file: &[u8], out: &mut [u8]) -> Sent
    requires { (512 ≤ length out.old) × (length file.now ≤ 65537) × ((load_call file.now).refusal ≡ refusal) × (refusal ≡ 0 → ⊥) }
    ensures { result.open ≡ true → result.bytes ≡ length (decompose_text file.now) }
{
    let n = session_text::print_refusal(out, 0, refusal);
    output::write_out(rt, streams::nothing_sent(), file, out, n)
}

// Writes the text of a file, or its refusal: as many bytes as the definition has, each as the next of it.
fn answer(rt: HostRuntime, file: &[u8]) -> Said
    requires { length file.now ≤ 65537 }
    ensures { (result.sent.open ≡ true → result.sent.bytes ≡ length (decompose_text file.now)) × (result.refused ≡ decompose_refused file.now) }
{
    let mut out = io::large_buffer();
    let loaded = file_load::load(file);
    let refusal = loaded.refusal;
    if refusal != 0 {
        let sent = write_refusal(rt, refusal, file, &mut out);
        return Said {
            sent,
            refused: true,
        };
    }
    let cal = file_calendar::calendar_of(file);
    let sent = write_text(rt, cal, file, &mut out);
    Said {
        sent,
        refused: false,
    }
}

// Reads standard input and answers it. A file that fills its buffer is too long, whatever follows.
// A file that cannot be read is told, and nothing is printed of it.
pub fn run(rt: HostRuntime) -> AnswerOutcome
    ensures { RunAnswered decompose_text decompose_refused result }
{
    let mut file = [0u8; 65537];
    let none = streams::nothing_read();
    let read = streams::read_on_or_tell(rt, b"decompose: standard input", none, 65537, &mut file);
    let input = read.input;
    if streams::has_failed(input) {
        return program_runs::unread(input);
    }
    let n = read.length;
    let said = answer(rt, &file[..n]);
    program_runs::ended(input, said)
}
