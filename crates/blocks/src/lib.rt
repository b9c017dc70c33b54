// The sheet in 512-byte blocks: checks, a block's content, and refusals 1 and 2.
#![tactic(auto)]

ghost use Rattle.std.specs.Prelude.{◌≡◌, ◌+◌, ◌*◌, ◌≤◌, ◌<◌, ◌^◌, length, take};
ghost use Rattle.numbers.specs.Bytes.{byte_at};
ghost use Rattle.layout.specs.Limits.{block_bytes, content_bytes, most_nodes};
ghost use Rattle.layout.specs.Checks.{weighted, check_of, block_right, Inside};
ghost use Rattle.refusals.specs.Said.{said_of};
ghost use Rattle.blocks.specs.Block.{BlockPart};
ghost use Rattle.blocks.specs.Early.{length_right, checks_refusal, early};

use layout::{BLOCK_BYTES, CONTENT_BYTES, MODULUS, MOST_SHEET_BYTES};
use refusals::{Cause, Refused};

// A content is summed in stretches: each so few bytes that the compiler makes their weights constants, and vectors of them.
const STRETCHES: usize = 5;

const STRETCH_BYTES: usize = CONTENT_BYTES / STRETCHES;

// A content byte times its weight.
fn weighed(content: &[u8], i: usize) -> u32
    requires { (i < length content.now) × (i < content_bytes) }
    ensures { result ≡ (i + 1) * byte_at content.now i }
{
    (i as u32 + 1) * (content[i] as u32)
}

// The sum of the bytes from one place of a content to another, each times its weight: 32 bits hold it.
fn stretch_sum(content: &[u8], from: usize, end: usize) -> u32
    requires { (from ≤ end) × (end ≤ length content.now) × (length content.now ≤ content_bytes) }
    ensures { weighted 1 (take from content.now) + result ≡ weighted 1 (take end content.now) }
{
    let mut sum = 0;
    for i in from..end {
        sum += weighed(content, i);
    }
    sum
}

// The sum of all bytes of a content, each times its weight.
fn weighed_sum(content: &[u8]) -> u32
    requires { length content.now ≡ content_bytes }
    ensures { result ≡ weighted 1 content.now }
{
    let mut sum = 0;
    for stretch in 0..STRETCHES {
        let from = STRETCH_BYTES * stretch;
        sum += stretch_sum(content, from, from + STRETCH_BYTES);
    }
    sum
}

// The check of block k with this content.
pub fn check_of(k: usize, content: &[u8]) -> usize
    requires { (block_bytes * k < 2 ^ 64) × (length content.now ≡ content_bytes) }
    ensures { result ≡ check_of k content.now }
{
    (k + 1 + weighed_sum(content) as usize) % MODULUS
}

// Whether the check of a block that is wholly inside the bytes is right.
fn block_right(sheet: &[u8], k: usize) -> bool
    requires { Inside sheet.now k }
    ensures { result ≡ block_right sheet.now k }
{
    let at = BLOCK_BYTES * k;
    let end = at + CONTENT_BYTES;
    let sum = check_of(k, &sheet[at..end]);
    let stored = numbers::u16_at(sheet, end) as usize;
    sum == stored
}

// A block's content as the very part of the sheet; an empty part where the block isn't all there or fails its check: document 01 hands
// that back, so there is no Option (`Block: BlockPart`).
pub fn block(sheet: &[u8], k: usize) -> &[u8]
    ensures { BlockPart sheet.entry k result }
{
    if sheet.len() / BLOCK_BYTES <= k {
        return &sheet[0..0];
    }
    if block_right(sheet, k) {
        let at = BLOCK_BYTES * k;
        let end = at + CONTENT_BYTES;
        return &sheet[at..end];
    }
    &sheet[0..0]
}

// Refusal 2: the lowest block whose check is wrong.
fn checks(sheet: &[u8]) -> Result<(), Refused>
    ensures { said_of result ≡ checks_refusal sheet.now }
{
    for k in 0..sheet.len() / BLOCK_BYTES {
        if !block_right(sheet, k) {
            return Err(Refused {
                cause: Cause::Check,
                place: k,
            });
        }
    }
    Ok(())
}

// Whether so many bytes are whole blocks, some, and no more than the longest sheet has.
#[tactic(auto, unfolding(crate::specs::Early::length_right))]
fn length_right(n: usize) -> bool
    ensures { result ≡ length_right most_nodes n }
{
    n != 0 && n % BLOCK_BYTES == 0 && n <= MOST_SHEET_BYTES
}

// Refusals 1 and 2.
#[tactic(auto, unfolding(crate::specs::Early::early))]
pub fn read_blocks(sheet: &[u8]) -> Result<(), Refused>
    ensures { said_of result ≡ early most_nodes sheet.now }
{
    if !length_right(sheet.len()) {
        return Err(Refused {
            cause: Cause::Length,
            place: 0,
        });
    }
    checks(sheet)
}
