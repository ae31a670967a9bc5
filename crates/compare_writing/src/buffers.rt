// The buffer that a file is written into, before and afterwards.

// Byte i of the buffer before a file is written into it.
fn byte_before(i: usize) -> u8 {
    ((7 * (i % 256) + 3) % 256) as u8
}

pub(crate) fn fill(out: &mut [u8]) {
    for (i, byte) in out.iter_mut().enumerate() {
        *byte = byte_before(i);
    }
}

// One number for some bytes in their order.
pub(crate) fn digest(bytes: &[u8]) -> u64 {
    let mut sum: u64 = 0;
    for byte in bytes {
        sum = (257 * sum + u64::from(*byte) + 1) % 4294967291;
    }
    sum
}
