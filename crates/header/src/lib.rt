// The header of a sheet: its counts, the bytes outside the records, and refusals 3 and 4.
// A function asks what the rows before it have shown, one more and another less: so these are clauses, and no type of a sheet.
#![tactic(auto)]

ghost use Rattle.std.specs.Prelude.{◌≡◌, ◌+◌, ◌*◌, ◌≤◌, ◌<◌, ◌==◌, length};
ghost use Rattle.std.specs.List.{list_all};
ghost use Rattle.numbers.specs.Bytes.{word_limit};
ghost use Rattle.layout.specs.Limits.{block_bytes, content_bytes, most_variables, most_nodes, sheet_bytes, most_blocks};
ghost use Rattle.layout.specs.Parts.{node_count, variable_count};
ghost use Rattle.refusals.specs.Said.{said_of};
ghost use Rattle.header.specs.Header.{zeros, counts_right, used_in, tail_clear, outside_clear, header};

use layout::{
    BLOCK_BYTES, CONTENT_BYTES, EDITION_OFFSET, HEADER_BYTES, HEADER_GAP, HEADER_GAP_BYTES,
    MOST_NODES, MOST_VARIABLES, NODE_BYTES, NODE_COUNT_OFFSET, NODES_IN_BLOCK, VARIABLE_BYTES,
    VARIABLE_COUNT_OFFSET,
};
use refusals::{Cause, Refused};

// N, the number of nodes.
pub fn node_count(sheet: &[u8]) -> usize
    requires { block_bytes ≤ length sheet.now }
    ensures { result ≡ node_count sheet.now }
{
    numbers::u16_at(sheet, NODE_COUNT_OFFSET) as usize
}

// V, the number of variables.
pub fn variable_count(sheet: &[u8]) -> usize
    requires { block_bytes ≤ length sheet.now }
    ensures { result ≡ variable_count sheet.now }
{
    numbers::byte_at(sheet, VARIABLE_COUNT_OFFSET) as usize
}

// Whether all of these bytes are zero.
fn all_zero(bytes: &[u8]) -> bool
    ensures { result ≡ list_all (λ b. b == 0) bytes.now }
{
    bytes.iter().all(|byte| *byte == 0)
}

// Whether n bytes from a place on are zero.
#[tactic(auto, using(crate::proofs::ZeroLaws::zeros_all))]
pub fn clear(sheet: &[u8], at: usize, n: usize) -> bool
    requires { at + n ≤ length sheet.now }
    ensures { result ≡ zeros sheet.now at n }
{
    all_zero(&sheet[at..at + n])
}

// The bytes of a sheet of so many nodes.
pub fn sheet_bytes(nodes: usize) -> usize
    requires { nodes < word_limit }
    ensures { result ≡ sheet_bytes nodes }
{
    BLOCK_BYTES * ((nodes + (NODES_IN_BLOCK - 1)) / NODES_IN_BLOCK + 1)
}

// Whether the counts and the length keep their rules.
#[tactic(auto, unfolding(crate::specs::Header::counts_right))]
fn counts_right(sheet: &[u8]) -> bool
    requires { block_bytes ≤ length sheet.now }
    ensures { result ≡ counts_right most_nodes sheet.now }
{
    let n = node_count(sheet);
    let v = variable_count(sheet);
    1 <= n && n <= MOST_NODES && v <= MOST_VARIABLES && sheet.len() == sheet_bytes(n)
}

// Where the used bytes of block k end.
fn used_in(sheet: &[u8], k: usize) -> usize
    requires { (block_bytes ≤ length sheet.now) × (variable_count sheet.now ≤ most_variables) × (node_count sheet.now ≤ most_nodes) × (k < most_blocks) }
    ensures { (result ≡ used_in sheet.now k) × (result ≤ content_bytes) }
{
    if k == 0 {
        return HEADER_BYTES + VARIABLE_BYTES * variable_count(sheet);
    }
    let n = node_count(sheet);
    let before = NODES_IN_BLOCK * (k - 1);
    if n <= before {
        return 0;
    }
    if NODES_IN_BLOCK <= n - before {
        return NODE_BYTES * NODES_IN_BLOCK;
    }
    NODE_BYTES * (n - before)
}

// Whether the content of block k is zero behind the used bytes.
fn tail_clear(sheet: &[u8], k: usize) -> bool
    requires { (block_bytes * k + block_bytes ≤ length sheet.now) × (variable_count sheet.now ≤ most_variables) × (node_count sheet.now ≤ most_nodes) × (k < most_blocks) }
    ensures { result ≡ tail_clear sheet.now k }
{
    let used = used_in(sheet, k);
    clear(sheet, BLOCK_BYTES * k + used, CONTENT_BYTES - used)
}

// Whether the bytes outside the records are zero.
fn outside_clear(sheet: &[u8]) -> bool
    requires { (length sheet.now ≡ sheet_bytes (node_count sheet.now)) × (variable_count sheet.now ≤ most_variables) × (node_count sheet.now ≤ most_nodes) }
    ensures { result ≡ outside_clear sheet.now }
{
    if !clear(sheet, HEADER_GAP, HEADER_GAP_BYTES) {
        return false;
    }
    for k in 0..sheet.len() / BLOCK_BYTES {
        if !tail_clear(sheet, k) {
            return false;
        }
    }
    true
}

// Refusals 3 and 4.
pub fn read_header(sheet: &[u8]) -> Result<(), Refused>
    requires { block_bytes ≤ length sheet.now }
    ensures { said_of result ≡ header most_nodes sheet.now }
{
    if numbers::u16_at(sheet, EDITION_OFFSET) != 1 {
        return Err(Refused {
            cause: Cause::Edition,
            place: 0,
        });
    }
    if !counts_right(sheet) || !outside_clear(sheet) {
        return Err(Refused {
            cause: Cause::Counts,
            place: 0,
        });
    }
    Ok(())
}
