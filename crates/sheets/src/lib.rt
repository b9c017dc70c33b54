// A sheet's bytes, put into lent room part by part: counts, variable records, node records, checks.
#![tactic(auto)]

ghost use Rattle.std.specs.Prelude.{◌≡◌, [], ◌∷◌, ◌++◌, ◌+◌, ◌*◌, ◌≤◌, ◌<◌, length};
ghost use Rattle.numbers.specs.Two.{enc};
ghost use Rattle.numbers.specs.Bytes.{pair};
ghost use Rattle.numbers.specs.Ranges.{◌⋯◌};
ghost use Rattle.layout.specs.Limits.{block_bytes, name_start, most_name_bytes, most_variables, most_nodes, node_bytes, node_place};
ghost use Rattle.layout.specs.Checks.{check_of, content, Inside};
ghost use Rattle.room.specs.Room.{Wrote};
ghost use Rattle.sheets.specs.Laying.{with_counts, with_variable, with_node, with_check, with_checks};

use kinds::Record;
use layout::{BLOCK_BYTES, CONTENT_BYTES};
use numbers::{NodeNumber, VariableNumber};

// The edition.
const EDITION: u8 = 1;

// The edition and the counts.
pub fn put_counts(sheet: &mut [u8], nodes: usize, variables: usize)
    requires { (block_bytes ≤ length sheet.old) × (nodes ≤ most_nodes) × (variables ≤ most_variables) }
    ensures { sheet.new ≡ with_counts nodes variables sheet.old }
{
    let [n0, n1] = (nodes as u16).to_le_bytes();
    room::put(sheet, 0, &[EDITION, 0, n0, n1, variables as u8]);
}

// The 16 bits that stand for a number in two's complement.
pub fn bits(x: i16) -> u16
    ensures { result ≡ enc 16 x }
{
    x.cast_unsigned()
}

// A variable's record up to its name: the ends of its domain and the name's length.
fn put_ends(sheet: &mut [u8], at: usize, low: i16, high: i16, size: usize) -> usize
    requires { (at + name_start ≤ length sheet.old) × (size ≤ most_name_bytes) }
    ensures { Wrote (pair (enc 16 low) ++ (pair (enc 16 high) ++ (size ∷ 0 ∷ []))) sheet.old sheet.new at result }
{
    let [l0, l1] = bits(low).to_le_bytes();
    let [h0, h1] = bits(high).to_le_bytes();
    room::put(sheet, at, &[l0, l1, h0, h1, size as u8, 0])
}

// A variable's record, where the room is zero behind the name.
pub fn put_variable(sheet: &mut [u8], n: VariableNumber, name: &[u8], low: i16, high: i16)
    requires { (block_bytes ≤ length sheet.old) × (n.0 < most_variables) × (length name.now ≤ most_name_bytes) }
    ensures { sheet.new ≡ with_variable n.0 (record { name = name.entry.now; domain = low ⋯ high }) sheet.old }
{
    let at = records::variable_place(n);
    let next = put_ends(sheet, at, low, high, name.len());
    room::put(sheet, next, name);
}

// A node's record.
pub fn put_node(sheet: &mut [u8], n: NodeNumber, fields: Record)
    requires { node_place n.0 + node_bytes ≤ length sheet.old }
    ensures { sheet.new ≡ with_node n.0 fields sheet.old }
{
    let [a0, a1] = fields.a.to_le_bytes();
    let [b0, b1] = fields.b.to_le_bytes();
    let [c0, c1] = fields.c.to_le_bytes();
    let [v0, v1] = fields.value.to_le_bytes();
    let kind = kinds::byte_of(fields.kind);
    let text = [kind, 0, a0, a1, b0, b1, c0, c1, v0, v1, 0, 0, 0, 0, 0, 0];
    room::put(sheet, records::node_place(n), &text);
}

// The check that a block's content gives.
fn content_check(sheet: &[u8], k: usize) -> u16
    requires { Inside sheet.now k }
    ensures { result ≡ check_of k (content sheet.now k) }
{
    let at = BLOCK_BYTES * k;
    let end = at + CONTENT_BYTES;
    blocks::check_of(k, &sheet[at..end]) as u16
}

// The check of a block.
fn put_check(sheet: &mut [u8], k: usize)
    requires { Inside sheet.old k }
    ensures { sheet.new ≡ with_check k sheet.old }
{
    let sum = content_check(sheet, k);
    room::put(sheet, BLOCK_BYTES * k + CONTENT_BYTES, &sum.to_le_bytes());
}

// The checks of all blocks.
pub fn put_checks(sheet: &mut [u8], count: usize)
    requires { block_bytes * count ≡ length sheet.old }
    ensures { sheet.new ≡ with_checks count sheet.old }
{
    for k in 0..count {
        put_check(sheet, k);
    }
}
