// A whole run of the program `terms`: reads master.bin and commands from standard input, and prints the answers.
#![tactic(auto)]

mod input;

ghost use Rattle.std.specs.Prelude.{◌≡◌, true, length};
ghost use Rattle.session_command.specs.Sessions.{terms_text, terms_refused};
ghost use Rattle.session_parts.specs.TermsParts.{counted};
ghost use Rattle.streams.specs.Inputs.{ForInput};
ghost use Rattle.program_status.specs.Statuses.{status_of};
ghost use Rattle.terms_run.specs.TermsOutcomes.{terms_failed, ended_with, TermsRan};

use session_handing::{Carried, SentText};
use streams::Input;

// How many bytes of master.bin were read, how far the input was, what was sent of the text, and the status with which the program ends.
#[derive(Clone, Copy)]
pub struct TermsOutcome {
    pub master: usize,
    pub input: Input,
    pub text: SentText,
    pub status: u8,
}

// The end of a run, with its status.
fn ended(master: usize, input: Input, text: SentText, refused: bool) -> TermsOutcome
    ensures { result ≡ ended_with master input text refused }
{
    let unread = streams::has_failed(input);
    let open = session_handing::is_open(text);
    let status = program_status::status(unread | !open, refused);
    TermsOutcome {
        master,
        input,
        text,
        status,
    }
}

// Judges the file once, and reads the input part by part, up to its end. What is answered is written before the next read. A read that fails ends the input.
fn answer_all(rt: HostRuntime, file: &[u8]) -> TermsOutcome
    ensures { (result.master ≡ length file.now) × (terms_failed result ≡ true → result.status ≡ 2) × (result.text.sent.open ≡ true → ForInput result.input (λ input. (result.text.sent.bytes ≡ counted 0 (length (terms_text file.now input))) × (result.status ≡ status_of (terms_failed result) (terms_refused file.now input)))) }
{
    let judged = file_load::judge(file);
    let mut part = io::large_buffer();
    let mut out = io::large_buffer();
    let kept = session_command::nothing_kept();
    let line = session_lines::empty_line();
    let text = session_handing::no_text();
    let mut k = Carried { kept, line, text };
    let mut input = streams::nothing_read();
    while 0 < streams::reads_left(input) {
        let read = input::read_part(rt, input, &mut part);
        input = read.input;
        let n = read.length;
        k = session_handing::write_part(rt, k, file, judged, &part[..n], &mut out);
        if !session_handing::is_open(k.text) {
            let shut = k.text;
            return ended(file.len(), input, shut, false);
        }
    }
    let all = session_handing::write_last(rt, k, file, judged, input, &mut out);
    let sent = all.text;
    ended(file.len(), input, sent, all.refused)
}

// A run. A file that cannot be read counts as empty.
pub fn run(rt: HostRuntime) -> TermsOutcome
    ensures { TermsRan result }
{
    let mut file = [0u8; 65537];
    let size = input::read_master(rt, &mut file);
    answer_all(rt, &file[..size])
}
