// Reading standard input and master.bin.
ghost use Rattle.io.specs.Counts.{IsPrefixLen};
ghost use Rattle.streams.specs.Inputs.{ReadOn};

use streams::{Input, Part};

// The next bytes of standard input at the start of part. A read that fails is told.
pub(crate) fn read_part(rt: HostRuntime, input: Input, part: &mut [u8]) -> Part
    ensures { ReadOn input 1 part.new result }
{
    streams::read_on_or_tell(rt, b"terms: standard input", input, 1, part)
}

// The bytes of master.bin at the start of file, and how many there are. A file that cannot be read counts as empty.
// One that fills the buffer has more than 65,536 bytes, which question 1 refuses.
pub(crate) fn read_master(rt: HostRuntime, file: &mut [u8]) -> usize
    ensures { IsPrefixLen result file.new }
{
    let read = streams::read_file(rt, b"master.bin", file);
    read.length
}
