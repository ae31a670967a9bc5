// Handing out what a list gives: the file on standard output, and what is told on standard error.
ghost use Rattle.std.specs.Prelude.{◌≡◌, false, ◌%◌, ◌^◌, ◌≤◌, length, take};
ghost use Rattle.file_text_told.specs.Whole.{OfInput, ComposeHandedOut};

use session_lines::Line;
use streams::{Input, Sent, Told};

// What standard output has taken, and what was told.
#[derive(Clone, Copy)]
pub struct ComposeHanded {
    sent: Sent,
    told: Told,
}

// Nothing was handed out.
pub(crate) fn nothing_handed() -> ComposeHanded
    ensures { (result.sent.bytes ≡ 0) × (result.told.bytes ≡ 0) }
{
    let sent = streams::nothing_sent();
    let told = streams::nothing_told();
    ComposeHanded { sent, told }
}

// Whether standard output has taken all.
pub(crate) fn is_open(handed: ComposeHanded) -> bool
    ensures { result ≡ handed.sent.open }
{
    streams::is_open(handed.sent)
}

// Writes the first n bytes of a buffer to standard output and a line to standard error,
// after the whole list was read: its file, and what is told of it.
// Where standard output does not take all bytes, one line on standard error says why.
pub(crate) fn hand_out(
    rt: HostRuntime,
    input: Input,
    file: &[u8],
    n: usize,
    line: Line,
) -> ComposeHanded
    requires { (input.left ≡ 0) × (input.failed ≡ false) × (n ≤ length file.now) × (n ≤ 65536) × (line.length ≤ 64) × OfInput input.bytes (take n file.now) (take line.length line.bytes) }
    ensures { ComposeHandedOut input.bytes result.sent.open result.sent.bytes result.told.bytes × (result.told.bytes % 2 ^ 64 ≡ line.length) }
{
    let bytes = line.bytes;
    let length = line.length;
    let none = streams::nothing_sent();
    let sent = streams::write_next(rt, none, b"compose: standard output", &file[..n]);
    let silent = streams::nothing_told();
    let told = streams::tell_next(rt, silent, &bytes[..length]);
    ComposeHanded { sent, told }
}
