// The records of a master file's product blocks: question 7.
#![tactic(auto)]

ghost use Rattle.std.specs.Prelude.{◌≡◌, not, ◌&&◌, ◌||◌, eqb, length};
ghost use Rattle.file_blocks.specs.Blocks.{block_of, is_products, number_at};
ghost use Rattle.file_records.specs.Records.{record_of, bytes_at, three_bytes, four_bytes, size_at, record_right, record_place_right, records_right, products_right};

use file_blocks::Block;
use std::array;

// Record k of a block; no bytes where it has no such place.
fn block_record(block: &Block, k: usize) -> &[u8]
    ensures { result.now ≡ record_of block.now k }
{
    if 15 <= k {
        return &[];
    }
    let start = 16 + 32 * k;
    &block[start..start + 32]
}

// A record of a block of the file; no bytes where the file has no such place.
pub fn record_at(file: &[u8], n: usize, k: usize) -> &[u8]
    ensures { result.now ≡ record_of (block_of file.now n) k }
{
    match file_blocks::blocks(file).get(n) {
        Some(block) => block_record(block, k),
        None => &[],
    }
}

// A currency's bytes.
pub type ThreeBytes = [u8; 3];

// The bytes of an id, a group or a market.
pub type FourBytes = [u8; 4];

// N bytes from a byte on; one past the end counts as 0.
pub fn bytes_at<const N: usize>(bytes: &[u8], at: u16) -> [u8; N]
    ensures { result ≡ bytes_at bytes.now at N }
{
    let first = usize::from(at);
    array::from_fn(|i| file_blocks::byte_at(bytes, first + i))
}

// A currency's bytes, from a byte on.
pub fn three_at(bytes: &[u8], at: u16) -> ThreeBytes
    ensures { result ≡ three_bytes bytes.now at }
{
    bytes_at(bytes, at)
}

// The bytes of an id, a group or a market, from a byte on.
pub fn four_at(bytes: &[u8], at: u16) -> FourBytes
    ensures { result ≡ four_bytes bytes.now at }
{
    bytes_at(bytes, at)
}

// The number in two bytes, as a field of a product.
pub fn field_at(bytes: &[u8], at: u16) -> u16
    ensures { result ≡ number_at bytes.now at }
{
    file_blocks::number_at(bytes, at) as u16
}

// The size in a record, in ten-thousandths of a share.
pub fn size_at(r: &[u8]) -> u32
    ensures { result ≡ size_at r.now }
{
    let shares = field_at(r, 13);
    let part = field_at(r, 20);
    10000 * u32::from(shares) + u32::from(part)
}

// Whether a record is as stated.
pub fn record_right(r: &[u8]) -> bool
    ensures { result ≡ record_right r.now }
{
    product::fields_right(
        four_at(r, 0),
        four_at(r, 4),
        four_at(r, 8),
        file_blocks::byte_at(r, 12),
        size_at(r),
        field_at(r, 15),
        three_at(r, 17),
    ) & product::file_size_right(field_at(r, 13), field_at(r, 20))
        & file_blocks::are_zero(r, 22, 10)
}

// Whether a place of a block holds a record as stated, or is unused and zero.
fn record_place_right(block: &Block, k: usize) -> bool
    ensures { result ≡ record_place_right block.now k }
{
    let count = file_blocks::number_at(block, 2);
    let r = block_record(block, k);
    if k < count {
        return record_right(r);
    }
    file_blocks::are_zero(r, 0, 32)
}

// Whether a block is no product block, or its records are right.
fn records_right(block: &Block) -> bool
    ensures { result ≡ (not (is_products block.now) || records_right block.now) }
{
    if block[0] != 2 {
        return true;
    }
    (0..15).all(|k| record_place_right(block, k)) & file_blocks::are_zero(block, 496, 14)
}

// Question 7, of a lent block: whether it is one, of 512 bytes, and its records are right; other blocks than product blocks have none.
pub fn block_records_right(b: &[u8]) -> bool
    ensures { result ≡ (eqb (length b.now) 512 && (not (is_products b.now) || records_right b.now)) }
{
    match <&Block>::try_from(b) {
        Ok(block) => records_right(block),
        Err(_) => false,
    }
}

// Question 7.
pub fn products_right(file: &[u8]) -> bool
    ensures { result ≡ products_right file.now }
{
    file_blocks::blocks(file).iter().all(records_right)
}
