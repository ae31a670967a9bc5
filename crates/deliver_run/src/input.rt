// Reading master.bin and notices.txt.
ghost use Rattle.streams.specs.Transfers.{Within};

use streams::Transfer;

// The bytes of master.bin at the start of a buffer. One that cannot be read is told, with the system's reason.
// One that fills the buffer has more than 65,536 bytes, which question 1 refuses.
pub(crate) fn read_master(rt: HostRuntime, file: &mut [u8]) -> Transfer
    ensures { Within result file.new }
{
    streams::read_file_or_tell(rt, b"deliver: master.bin", b"master.bin", file)
}

// The bytes of notices.txt at the start of a buffer. One that cannot be read is told, with the system's reason.
// Of one that has more than 65,536 bytes the next is read too.
pub(crate) fn read_notices(rt: HostRuntime, text: &mut [u8]) -> Transfer
    ensures { Within result text.new }
{
    streams::read_file_or_tell(rt, b"deliver: notices.txt", b"notices.txt", text)
}
