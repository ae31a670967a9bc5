// The blocks of a master file, their checks and their headers: questions 1 to 3.
#![tactic(auto)]

ghost use Rattle.std.specs.Prelude.{◌≡◌, ◌&&◌, ◌+◌, ◌*◌, ◌%◌, ◌≤◌, ◌<◌, eqb, length, get_or};
ghost use Rattle.file_blocks.specs.Blocks.{block_count, block_of, blocks_of, number_at, zeros, weighted_sum, check_right, block_kind_right, header_right, length_right, checks_right, headers_right};

// A byte; one past the end counts as 0.
pub fn byte_at(bytes: &[u8], at: usize) -> u8
    ensures { result ≡ get_or bytes.now at 0 }
{
    bytes.get(at).copied().unwrap_or(0)
}

// The big-endian number in two bytes.
pub fn number_at(bytes: &[u8], at: u16) -> usize
    ensures { (result ≡ number_at bytes.now at) × (result < 65536) }
{
    let first = usize::from(at);
    usize::from(u16::from_be_bytes([byte_at(bytes, first), byte_at(bytes, first + 1)]))
}

// The bits that some bytes have together; the compiler reads many bytes at once.
fn bits_of(bytes: &[u8]) -> u8
    ensures { eqb result 0 ≡ zeros bytes.now 0 (length bytes.now) }
{
    let mut bits: u8 = 0;
    for byte in bytes {
        bits |= *byte;
    }
    bits
}

// Whether n bytes from a byte on are zero; one past the end counts as 0.
pub fn are_zero(bytes: &[u8], at: u16, n: u16) -> bool
    ensures { result ≡ zeros bytes.now at n }
{
    let first = usize::from(at);
    let end = first + usize::from(n);
    if end <= bytes.len() {
        return bits_of(&bytes[first..end]) == 0;
    }
    bits_of(&bytes[first.min(bytes.len())..bytes.len()]) == 0
}

// A block.
pub type Block = [u8; 512];

// The whole blocks of a file.
pub fn blocks(file: &[u8]) -> &[Block]
    ensures { (result.now ≡ blocks_of file.now) × (length result.now ≡ block_count file.now) }
{
    file.as_chunks().0
}

// A block of the file; no bytes where the file has no such block.
pub fn block_at(file: &[u8], k: usize) -> &[u8]
    ensures { (result.now ≡ block_of file.now k) × (k < block_count file.now → length result.now ≡ 512) }
{
    match blocks(file).get(k) {
        Some(block) => block,
        None => &[],
    }
}

// Question 1.
pub fn length_right(file: &[u8]) -> bool
    ensures { result ≡ length_right file.now }
{
    let n = file.len();
    (n % 512 == 0) & (1024 <= n) & (n <= 65536)
}

// Bytes i and 255 + i, each times its place from 1. Each product fits 16 bits, so the compiler multiplies many at once.
fn two_terms(i: u16, first: u16, second: u16) -> u32
    requires { (i < 255) × (first < 256) × (second < 256) }
    ensures { (result ≡ (i + 1) * first + (255 + i + 1) * second) × (result ≤ 195075) }
{
    ((i + 1) * first) as u32 + ((i + 1) * second) as u32 + (255 * second) as u32
}

// The sum of each of the first 510 bytes of a block times its place from 1.
fn weighted_sum(block: &Block) -> u32
    ensures { result ≡ weighted_sum block.now 510 }
{
    let mut sum: u32 = 0;
    for i in 0..255 {
        let first = u16::from(block[usize::from(i)]);
        let second = u16::from(block[255 + usize::from(i)]);
        sum += two_terms(i, first, second);
    }
    sum
}

// The check that a block's first 510 bytes have.
pub fn check_of(block: [u8; 512]) -> u16
    ensures { result ≡ weighted_sum block 510 % 65521 }
{
    (weighted_sum(&block) % 65521) as u16
}

// Whether a block's check is right.
fn check_right(block: &Block) -> bool
    ensures { result ≡ check_right block.now }
{
    (weighted_sum(block) % 65521) as usize == number_at(block, 510)
}

// Question 2, of a lent block: whether it is one, of 512 bytes, and its check is right.
pub fn block_check_right(b: &[u8]) -> bool
    ensures { result ≡ (eqb (length b.now) 512 && check_right b.now) }
{
    match <&Block>::try_from(b) {
        Ok(block) => check_right(block),
        Err(_) => false,
    }
}

// Question 2.
pub fn checks_right(file: &[u8]) -> bool
    ensures { result ≡ checks_right file.now }
{
    blocks(file).iter().all(check_right)
}

// Whether a block is of a kind, with a year or a count in its range.
fn block_kind_right(b: &[u8]) -> bool
    ensures { result ≡ block_kind_right b.now }
{
    let kind = byte_at(b, 0);
    let n = number_at(b, 2);
    ((kind == 1) & (2000 <= n) & (n <= 2099)) | ((kind == 2) & (1 <= n) & (n <= 15))
}

// Question 3, of a lent block: whether its header is right, with the index k.
pub fn block_header_right(b: &[u8], k: usize) -> bool
    ensures { result ≡ header_right b.now k }
{
    block_kind_right(b) & (byte_at(b, 1) == 1) & (number_at(b, 4) == k) & are_zero(b, 6, 10)
}

// Question 3.
pub fn headers_right(file: &[u8]) -> bool
    ensures { result ≡ headers_right file.now }
{
    blocks(file)
        .iter()
        .enumerate()
        .all(|(k, block)| block_header_right(block, k))
}
