// The records of a sheet: variable records, node records, and refusal 5.
#![tactic(auto)]

ghost use Rattle.std.specs.Prelude.{◌≡◌, ◌&&◌, ◌+◌, ◌*◌, ◌≤◌, ◌<◌, leb, length};
ghost use Rattle.std.specs.Int.Signed.{le_z};
ghost use Rattle.lists.specs.Part.{PartAt};
ghost use Rattle.numbers.specs.Bytes.{most_byte, i16_at};
ghost use Rattle.layout.specs.Limits.{block_bytes, max_offset, name_start, most_variables, node_bytes, variable_place, node_place};
ghost use Rattle.layout.specs.Parts.{variable_count, variable_at, record_in, name_size, zero_byte, name_in, table};
ghost use Rattle.refusals.specs.Said.{said_of};
ghost use Rattle.lists.specs.Names.{same_bytes};
ghost use Rattle.std.specs.List.{list_all};
ghost use Rattle.records.specs.Variables.{is_letter, is_name_byte, name_right, variable_right, fresh, variables};

use kinds::Record;
use layout::{
    A_OFFSET, B_OFFSET, BLOCK_BYTES, C_OFFSET, HEADER_BYTES, MAX_OFFSET, MOST_NAME_BYTES,
    NAME_FIELD, NAME_SIZE_OFFSET, NAME_START, NODE_BYTES, NODES_IN_BLOCK, SPARE_OFFSET,
    SPARE_START, VALUE_OFFSET, VARIABLE_BYTES, ZERO_OFFSET,
};
use numbers::{NodeNumber, Range, VariableNumber};
use refusals::{Cause, Refused};

#[tactic(auto, unfolding(crate::specs::Variables::is_letter))]
fn letter(b: u8) -> bool
    ensures { result ≡ is_letter b }
{
    matches!(b, b'A'..=b'Z' | b'a'..=b'z')
}

#[tactic(auto, unfolding(crate::specs::Variables::is_name_byte))]
fn name_byte(b: u8) -> bool
    ensures { result ≡ is_name_byte b }
{
    letter(b) || matches!(b, b'0'..=b'9' | b'_')
}

// Whether all bytes may stand in a name behind its first.
fn name_bytes(bytes: &[u8]) -> bool
    ensures { result ≡ list_all is_name_byte bytes.now }
{
    bytes.iter().all(|b| name_byte(*b))
}

// Whether the bytes are a name.
#[tactic(auto, unfolding(crate::specs::Variables::name_right))]
pub fn name_right(name: &[u8]) -> bool
    ensures { result ≡ name_right name.now }
{
    match name {
        [first, rest @ ..] => letter(*first) && name_bytes(rest),
        [] => false,
    }
}

// Whether two texts are the same, byte for byte.
#[tactic(auto, using(crate::proofs::StepLaws::same_pointwise))]
pub fn same_bytes(a: &[u8], b: &[u8]) -> bool
    ensures { result ≡ same_bytes a.now b.now }
{
    a == b
}

// The name in the variable record at a place, as the very part of the sheet.
pub fn name_in(sheet: &[u8], at: usize) -> &[u8]
    requires { at + name_start + most_byte ≤ length sheet.now }
    ensures { PartAt sheet.entry result (at + name_start) (name_size sheet.now at) }
{
    let size = numbers::byte_at(sheet, at + NAME_SIZE_OFFSET) as usize;
    let start = at + NAME_START;
    let end = start + size;
    &sheet[start..end]
}

// Where a variable's record stands.
pub fn variable_place(n: VariableNumber) -> usize
    ensures { result ≡ variable_place n.0 }
{
    HEADER_BYTES + VARIABLE_BYTES * (n.0 as usize)
}

// Whether min ≤ max in the variable record at a place.
fn ordered(sheet: &[u8], at: usize) -> bool
    requires { at + name_start ≤ length sheet.now }
    ensures { result ≡ le_z (i16_at sheet.now at) (i16_at sheet.now (at + max_offset)) }
{
    numbers::i16_at(sheet, at) <= numbers::i16_at(sheet, at + MAX_OFFSET)
}

// The byte of the variable record at a place that must be zero.
fn zero_byte(sheet: &[u8], at: usize) -> u8
    requires { at + name_start ≤ length sheet.now }
    ensures { result ≡ zero_byte sheet.now at }
{
    sheet[at + ZERO_OFFSET]
}

// Whether the variable record at a place keeps its own rules.
fn variable_right(sheet: &[u8], at: usize) -> bool
    requires { at + name_start + most_byte ≤ length sheet.now }
    ensures { result ≡ variable_right sheet.now at }
{
    if !ordered(sheet, at) {
        return false;
    }
    let size = numbers::byte_at(sheet, at + NAME_SIZE_OFFSET) as usize;
    if size < 1 {
        return false;
    }
    if MOST_NAME_BYTES < size {
        return false;
    }
    if zero_byte(sheet, at) != 0 {
        return false;
    }
    if !name_right(name_in(sheet, at)) {
        return false;
    }
    header::clear(sheet, at + NAME_START + size, NAME_FIELD - size)
}

// Whether two variables have the same name.
fn same_name(sheet: &[u8], m: VariableNumber, n: VariableNumber) -> bool
    requires { (2 * block_bytes ≤ length sheet.now) × (m.0 < most_variables) × (n.0 < most_variables) }
    ensures { result ≡ same_bytes (name_in sheet.now (variable_place m.0)) (name_in sheet.now (variable_place n.0)) }
{
    let a = name_in(sheet, variable_place(m));
    let b = name_in(sheet, variable_place(n));
    same_bytes(a, b)
}

// Whether no lower variable has a variable's name.
fn fresh_name(sheet: &[u8], n: VariableNumber) -> bool
    requires { (2 * block_bytes ≤ length sheet.now) × (n.0 < most_variables) }
    ensures { result ≡ fresh sheet.now n.0 }
{
    for m in 0..n.0 {
        if same_name(sheet, VariableNumber(m), n) {
            return false;
        }
    }
    true
}

// Whether a variable's record keeps its own rules and no lower variable has its name.
fn variable_kept(sheet: &[u8], n: VariableNumber) -> bool
    requires { (2 * block_bytes ≤ length sheet.now) × (n.0 < most_variables) }
    ensures { result ≡ variable_right sheet.now (variable_place n.0) && fresh sheet.now n.0 }
{
    variable_right(sheet, variable_place(n)) && fresh_name(sheet, n)
}

// Refusal 5: the lowest variable record that breaks a rule.
pub fn read_variables(sheet: &[u8]) -> Result<(), Refused>
    requires { (2 * block_bytes ≤ length sheet.now) × (variable_count sheet.now ≤ most_variables) }
    ensures { said_of result ≡ variables sheet.now }
{
    let v = header::variable_count(sheet);
    for i in 0..v {
        if !variable_kept(sheet, VariableNumber(i as u16)) {
            return Err(Refused {
                cause: Cause::Variable,
                place: i,
            });
        }
    }
    Ok(())
}

// A variable's domain.
pub fn domain(sheet: &[u8], n: VariableNumber) -> Range
    requires { (block_bytes ≤ length sheet.now) × (n.0 < most_variables) }
    ensures { result ≡ (variable_at sheet.now n.0).domain }
{
    let at = variable_place(n);
    let low = numbers::i16_at(sheet, at);
    let high = numbers::i16_at(sheet, at + MAX_OFFSET);
    numbers::range_of(low, high)
}

// Where a node's record stands.
pub fn node_place(n: NodeNumber) -> usize
    ensures { result ≡ node_place n.0 }
{
    let i = n.0 as usize;
    BLOCK_BYTES * (i / NODES_IN_BLOCK + 1) + NODE_BYTES * (i % NODES_IN_BLOCK)
}

// The sum of the bytes of the node record at a place that every kind leaves zero.
fn spare_in(sheet: &[u8], at: usize) -> u16
    requires { at + node_bytes ≤ length sheet.now }
    ensures { result ≡ (record_in sheet.now at).spare }
{
    let low = numbers::byte_at(sheet, at + SPARE_OFFSET)
        + numbers::byte_at(sheet, at + SPARE_START)
        + numbers::byte_at(sheet, at + (SPARE_START + 1));
    let mid = low
        + numbers::byte_at(sheet, at + (SPARE_START + 2))
        + numbers::byte_at(sheet, at + (SPARE_START + 3));
    mid + numbers::byte_at(sheet, at + (SPARE_START + 4))
        + numbers::byte_at(sheet, at + (SPARE_START + 5))
}

// A node's record.
pub fn record_at(sheet: &[u8], n: NodeNumber) -> Record
    requires { node_place n.0 + node_bytes ≤ length sheet.now }
    ensures { result ≡ table sheet.now n.0 }
{
    let at = node_place(n);
    Record {
        kind: kinds::kind_of(sheet[at]),
        a: numbers::u16_at(sheet, at + A_OFFSET),
        b: numbers::u16_at(sheet, at + B_OFFSET),
        c: numbers::u16_at(sheet, at + C_OFFSET),
        value: numbers::u16_at(sheet, at + VALUE_OFFSET),
        spare: spare_in(sheet, at),
    }
}
