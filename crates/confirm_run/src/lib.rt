// A run of `confirm`: reads master.bin and, from standard input, an open, rolls and closes and a vendor's listing,
// and says whether that is the table's fresh listing.
#![tactic(auto)]

ghost use Rattle.std.specs.Prelude.{◌≡◌, true, ◌≤◌, length, take};
ghost use Rattle.confirm_inputs.specs.ConfirmInputs.{confirm_text, confirm_refused};
ghost use Rattle.program_runs.specs.AnsweredRuns.{RunAnswered, RunAnsweredWith};

use program_runs::{AnswerOutcome, Said};
use streams::Sent;

// Writes the first n bytes of a buffer, which have to be the text of the input. Where the output does not take them, one line on standard error says why.
fn write_out(rt: HostRuntime, file: &[u8], input: &[u8], out: &[u8], n: usize) -> Sent
    requires { (n ≤ length out.now) × (take n out.now ≡ confirm_text file.now input.now) }
    ensures { result.open ≡ true → result.bytes ≡ length (confirm_text file.now input.now) }
{
    streams::write_next(
        rt,
        streams::nothing_sent(),
        b"confirm: standard output",
        &out[..n],
    )
}

// Writes the line of an input, all of it.
fn answer(rt: HostRuntime, file: &[u8], input: &[u8], list: &mut [u16]) -> Said
    requires { 6900 ≤ length list.old }
    ensures { (result.sent.open ≡ true → result.sent.bytes ≡ length (confirm_text file.now input.now)) × (result.refused ≡ confirm_refused file.now input.now) }
{
    let line = confirm_inputs::confirm_line(file, input, list);
    let bytes = line.bytes;
    let n = line.length;
    let refused = !confirm_inputs::is_yes(&bytes[..n]);
    let sent = write_out(rt, file, input, &bytes, n);
    Said { sent, refused }
}

// Reads standard input and answers it by a master file. An input that fills its buffer is too long, whatever follows.
// An input that cannot be read is told, and nothing is said of it.
pub fn run_with(rt: HostRuntime, file: &[u8]) -> AnswerOutcome
    ensures { RunAnswered (confirm_text file.now) (confirm_refused file.now) result }
{
    let mut text = [0u8; 65537];
    let mut list = [0u16; 6900];
    let none = streams::nothing_read();
    let read = streams::read_on_or_tell(rt, b"confirm: standard input", none, 65537, &mut text);
    let input = read.input;
    if streams::has_failed(input) {
        return program_runs::unread(input);
    }
    let n = read.length;
    let said = answer(rt, file, &text[..n], &mut list);
    program_runs::ended(input, said)
}

// The same by master.bin. One that cannot be read counts as empty; one that fills its buffer is too long.
pub fn run(rt: HostRuntime) -> AnswerOutcome
    ensures { RunAnsweredWith confirm_text confirm_refused result }
{
    let mut file = [0u8; 65537];
    let master = streams::read_file(rt, b"master.bin", &mut file);
    let size = master.length;
    run_with(rt, &file[..size])
}
