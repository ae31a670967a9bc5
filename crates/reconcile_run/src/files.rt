// Reading master.bin and notices.txt.
ghost use Rattle.std.specs.Prelude.{◌≡◌, true, false, ◌≤◌, length};

// Whether a file was tried to be read, whether that failed, and how many bytes of it stand at the start of its buffer.
// Its fields are private: only this file makes one, so no other code can say that a file was read, or that it could not be.
#[derive(Clone, Copy)]
pub struct FileRead {
    tried: bool,
    failed: bool,
    length: usize,
}

// Of a file that is not tried to be read.
pub(crate) fn not_read() -> FileRead
    ensures { (result.tried ≡ false) × (result.failed ≡ false) × (result.length ≡ 0) }
{
    FileRead {
        tried: false,
        failed: false,
        length: 0,
    }
}

// Whether a file could not be read.
pub(crate) fn could_not(read: FileRead) -> bool
    ensures { result ≡ read.failed }
{
    read.failed
}

// How many bytes of it were read.
pub(crate) fn size(read: FileRead) -> usize
    ensures { result ≡ read.length }
{
    read.length
}

// The bytes of master.bin at the start of a buffer. One that cannot be read is told, with the system's reason.
// One that fills the buffer has more than 65,536 bytes, which question 1 refuses.
pub(crate) fn read_master(rt: HostRuntime, file: &mut [u8]) -> FileRead
    ensures { (result.tried ≡ true) × (result.length ≤ length file.new) }
{
    let read = streams::read_file_or_tell(rt, b"reconcile: master.bin", b"master.bin", file);
    FileRead {
        tried: true,
        failed: read.failed,
        length: read.length,
    }
}

// The bytes of notices.txt at the start of a buffer. One that cannot be read is told, with the system's reason.
// Of one that has more than 65,536 bytes the next is read too.
pub(crate) fn read_notices(rt: HostRuntime, text: &mut [u8]) -> FileRead
    ensures { (result.tried ≡ true) × (result.length ≤ length text.new) }
{
    let read = streams::read_file_or_tell(rt, b"reconcile: notices.txt", b"notices.txt", text);
    FileRead {
        tried: true,
        failed: read.failed,
        length: read.length,
    }
}
