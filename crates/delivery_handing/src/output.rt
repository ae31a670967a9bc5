// Rows on standard output, and what is told on standard error.
ghost use Rattle.std.specs.Prelude.{◌≡◌, ◌+◌, ◌≤◌, true, not, length, take, ◌==◌};
ghost use Rattle.delivery_parts.specs.PlaceParts.{deliver_text, deliver_refusals};
ghost use Rattle.file_text_print.specs.WholeText.{NextOf};

use session_lines::Line;
use streams::Sent;

// What standard output has taken of a delivery, and how many bytes were told of it, modulo 2^64.
// Its fields are private: only this file makes one. Its counts are promised only where what write_out and tell were given comes next of the two texts.
#[derive(Clone, Copy)]
pub struct DeliveryHanded {
    sent: Sent,
    told: u64,
}

// Before the first write.
pub fn nothing_handed() -> DeliveryHanded
    ensures { (result.sent.open ≡ true) × (result.sent.bytes ≡ 0) × (result.told ≡ 0) }
{
    let sent = streams::nothing_sent();
    DeliveryHanded { sent, told: 0 }
}

// Whether standard output has taken all.
pub fn is_open(handed: DeliveryHanded) -> bool
    ensures { result ≡ handed.sent.open }
{
    streams::is_open(handed.sent)
}

// Whether anything was told.
pub fn has_told(handed: DeliveryHanded) -> bool
    ensures { result ≡ not (handed.told == 0) }
{
    handed.told != 0
}

// Writes the first n bytes of a buffer: where they are the next of the rows of a file and notices after those that were written, their number is counted.
// Where standard output does not take them, one line on standard error says why. Of more bytes than the buffer has none is written.
pub(crate) fn write_out(
    rt: HostRuntime,
    handed: DeliveryHanded,
    file: &[u8],
    text: &[u8],
    out: &[u8],
    n: usize,
) -> DeliveryHanded
    ensures { (n ≤ length out.now → handed.sent.bytes + n ≤ 1000000000000 → NextOf (deliver_text file.now text.now) handed.sent.bytes (take n out.now) → result.sent.open ≡ true → result.sent.bytes ≡ handed.sent.bytes + n) × (result.told ≡ handed.told) }
{
    if out.len() < n {
        return handed;
    }
    let sent = streams::write_next(rt, handed.sent, b"deliver: standard output", &out[..n]);
    DeliveryHanded {
        sent,
        told: handed.told,
    }
}

// Writes a line, which has to be the next of the rows.
pub(crate) fn write_line(
    rt: HostRuntime,
    handed: DeliveryHanded,
    file: &[u8],
    text: &[u8],
    line: Line,
) -> DeliveryHanded
    ensures { (line.length ≤ 64 → handed.sent.bytes ≤ 1000000 → NextOf (deliver_text file.now text.now) handed.sent.bytes (take line.length line.bytes) → result.sent.open ≡ true → result.sent.bytes ≡ handed.sent.bytes + line.length) × (result.told ≡ handed.told) }
{
    let bytes = line.bytes;
    write_out(rt, handed, file, text, &bytes, line.length)
}

// Writes a line to standard error: where it is the next of what is told of a file and notices, its bytes are counted.
// Nothing is written where it has no bytes, or more than 64.
pub fn tell(
    rt: HostRuntime,
    handed: DeliveryHanded,
    file: &[u8],
    text: &[u8],
    line: Line,
) -> DeliveryHanded
    ensures { (result.sent ≡ handed.sent) × (line.length ≤ 64 → handed.told ≤ 1000000000000 → NextOf (deliver_refusals file.now text.now) handed.told (take line.length line.bytes) → result.told ≡ handed.told + line.length) }
{
    let n = line.length;
    if n == 0 {
        return handed;
    }
    if 64 < n {
        return handed;
    }
    let bytes = line.bytes;
    streams::tell(rt, &bytes[..n]);
    let sent = handed.sent;
    let told = std::num::wrapping_add_u64(handed.told, n as u64);
    DeliveryHanded { sent, told }
}
