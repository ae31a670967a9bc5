// Reading standard input.
ghost use Rattle.streams.specs.Inputs.{ReadOn};

use streams::{Input, Part};

// The next bytes of standard input at the start of a buffer. A read that fails is told.
pub(crate) fn read_part(rt: HostRuntime, input: Input, part: &mut [u8]) -> Part
    ensures { ReadOn input 1 part.new result }
{
    streams::read_on_or_tell(rt, b"query: standard input", input, 1, part)
}

// The first bytes of standard input at the start of a buffer: three or more, as a mark has three, or all that there are. A read that fails is told.
pub(crate) fn read_first(rt: HostRuntime, input: Input, part: &mut [u8]) -> Part
    ensures { ReadOn input 3 part.new result }
{
    streams::read_on_or_tell(rt, b"query: standard input", input, 3, part)
}
