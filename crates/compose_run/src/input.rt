// Reading standard input part by part.
ghost use Rattle.streams.specs.Inputs.{ReadOn};

use streams::{Input, Part};

// The next bytes of standard input at the start of part. A read that fails is told.
pub(crate) fn read_part(rt: HostRuntime, input: Input, part: &mut [u8]) -> Part
    ensures { ReadOn input 1 part.new result }
{
    streams::read_on_or_tell(rt, b"compose: standard input", input, 1, part)
}
