// What a program is asked for by its arguments, and what it does then: its run, or a text.
// Nothing can say which arguments there are, so what is asked for is tested (tests/gate/installed.py); promised is the status.
#![tactic(auto)]

ghost use Rattle.std.specs.Prelude.{◌≡◌, ◌≤◌, ◌⊎◌, cond, length, IfSome};

use program_help::Program;
use std::env::FillError;
use std::rt::Env;
use streams::Sent;

// Nothing, or one of the two words that every program knows, or something else.
#[derive(Clone, Copy)]
pub enum Request {
    Nothing,
    Help,
    Version,
    Other,
}

// Whether the program was started with an argument of this number; its own name is 0.
fn is_there(rt: HostRuntime, i: usize) -> bool {
    let mut word = [0u8; 1];
    !matches!(rt.arg(i, &mut word), Err(FillError::NotPresent))
}

// The one argument of a program at the start of a text, and its length; none where there is none, or more than one, or the text is too short for it.
pub fn sole_argument(rt: HostRuntime, text: &mut [u8]) -> Option<usize>
    ensures { IfSome result (λ n. n ≤ length text.new) }
{
    if !is_there(rt, 1) | is_there(rt, 2) {
        return None;
    }
    rt.arg(1, text).ok()
}

// What a program is asked for.
pub fn asked_for(rt: HostRuntime) -> Request {
    if !is_there(rt, 1) {
        return Request::Nothing;
    }
    let mut word = [0u8; 10];
    let Some(n) = sole_argument(rt, &mut word) else {
        return Request::Other;
    };
    match &word[..n] {
        b"--help" => Request::Help,
        b"--version" => Request::Version,
        _ => Request::Other,
    }
}

// The status after a text that was asked for was written.
pub fn shown(sent: Sent) -> u8
    ensures { result ≡ cond sent.open 0 2 }
{
    if streams::is_open(sent) {
        return 0;
    }
    2
}

// Tells that the arguments of a program are none of those that it knows; nothing is read. The status is 2.
pub fn refused(rt: HostRuntime, program: &[u8]) -> u8
    ensures { result ≡ 2 }
{
    streams::tell(rt, program);
    streams::tell(rt, b": unknown argument; --help says what there is\n");
    2
}

// What a program without arguments of its own does: its run, or what it says of itself; the status with which it ends.
pub fn answered<F: FnOnce(HostRuntime) -> u8>(rt: HostRuntime, program: Program, run: F) -> u8
    requires { F.pre run rt }
    ensures { F.post run rt result ⊎ (result ≡ 0) ⊎ (result ≡ 2) }
{
    let none = streams::nothing_sent();
    match asked_for(rt) {
        Request::Nothing => run(rt),
        Request::Help => shown(program.write_help(rt, none)),
        Request::Version => shown(program.write_version(rt, none)),
        Request::Other => refused(rt, program.name()),
    }
}
