// Writing to standard output.
ghost use Rattle.std.specs.Prelude.{◌≡◌, true, ◌+◌, ◌≤◌, length, take};
ghost use Rattle.file_text_print.specs.WholeText.{decompose_text, NextOf};

use streams::Sent;

// Writes the first n bytes of a buffer, which have to be the next of the file's text after those that were written.
// Where the output does not take them, one line on standard error says why.
pub(crate) fn write_out(rt: HostRuntime, sent: Sent, file: &[u8], out: &[u8], n: usize) -> Sent
    requires { (n ≤ length out.now) × (length file.now ≤ 65537) × NextOf (decompose_text file.now) sent.bytes (take n out.now) }
    ensures { result.open ≡ true → result.bytes ≡ sent.bytes + n }
{
    streams::write_next(rt, sent, b"decompose: standard output", &out[..n])
}
