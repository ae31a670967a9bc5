// A run of `compose`: reads a list from standard input and writes the master file of what it says to standard output, or one line to standard error.
#![tactic(auto)]

mod input;
mod output;

ghost use Rattle.std.specs.Prelude.{◌≡◌, false, length};
ghost use Rattle.file_text_told.specs.Whole.{ReadTo};
ghost use Rattle.compose_run.specs.ComposeRuns.{ComposeRan, ComposeEnded};

use delivery_items::LongLine;
use file_text_read::ListTaken;
pub use output::ComposeHanded;
use streams::Input;

// What the lines so far say, the line begun, and how far the list was read.
#[derive(Clone, Copy)]
pub struct ListRead {
    pub taken: ListTaken,
    pub line: LongLine,
    pub input: Input,
}

// How far the list was read, what was handed out, and the status.
#[derive(Clone, Copy)]
pub struct ComposeOutcome {
    pub input: Input,
    pub handed: ComposeHanded,
    pub status: u8,
}

// Reads the list to its end, part by part.
fn read_list(rt: HostRuntime, records: &mut [u8]) -> ListRead
    requires { length records.old ≡ 65536 }
    ensures { (result.input.left ≡ 0) × ReadTo result.taken result.line records.new result.input.bytes }
{
    let mut part = io::large_buffer();
    let mut taken = file_text_read::nothing_taken();
    let mut line = delivery_items::empty_long_line();
    let mut input = streams::nothing_read();
    while 0 < streams::reads_left(input) {
        let read = input::read_part(rt, input, &mut part);
        input = read.input;
        let n = read.length;
        let p = file_text_read::take_part(taken, line, &part[..n], records);
        taken = p.taken;
        line = p.line;
    }
    ListRead { taken, line, input }
}

// Hands out the file of a list that was read to its end, or why there is none.
fn answer(rt: HostRuntime, r: ListRead, records: &mut [u8]) -> ComposeOutcome
    requires { (r.input.left ≡ 0) × (r.input.failed ≡ false) × ReadTo r.taken r.line records.old r.input.bytes }
    ensures { (result.input ≡ r.input) × ComposeRan r.input.bytes result.handed result.status }
{
    let mut file = io::large_buffer();
    let begun = r.taken;
    let line = r.line;
    let input = r.input;
    let taken = file_text_read::take_last(begun, line, records);
    let c = file_text_read::compose(taken, records, &mut file);
    let told = file_text_told::said(c);
    let handed = output::hand_out(rt, input, &file, c.length, told);
    let status = program_status::status(!output::is_open(handed), told.length != 0);
    ComposeOutcome {
        input,
        handed,
        status,
    }
}

// Reads the list and hands out what it gives. Of a list that could not be read to its end nothing is handed out.
pub fn run(rt: HostRuntime) -> ComposeOutcome
    ensures { ComposeEnded result }
{
    let mut records = io::large_buffer();
    let r = read_list(rt, &mut records);
    let input = r.input;
    if streams::has_failed(input) {
        let handed = output::nothing_handed();
        let status = program_status::status(true, false);
        return ComposeOutcome {
            input,
            handed,
            status,
        };
    }
    answer(rt, r, &mut records)
}
