// The expressions of plain texts, written into lent room: the words of a node and of its operands, and how long they are.
#![tactic(auto)]

ghost use Rattle.std.specs.Prelude.{◌≡◌, ◌++◌, ◌+◌, ◌≤◌, ◌<◌, length};
ghost use Rattle.lists.specs.Ascii.{ascii};
ghost use Rattle.layout.specs.Parts.{node_count, variable_count, variable_at};
ghost use Rattle.room.specs.Room.{Wrote};
ghost use Rattle.expressions.specs.Phrases.{phrase_at, word_at, words_bytes, one_text, two_text, three_text};

use kinds::{Record, Shape};
use numbers::{NodeNumber, VariableNumber};
use reading::accepted::Accepted;

// A variable's name, from a place of the room on.
pub fn put_name(sheet: &Accepted, n: VariableNumber, room: &mut [u8], at: usize) -> usize
    requires { (n.0 < variable_count sheet.now) × (at + length (variable_at sheet.now n.0).name ≤ length room.old) }
    ensures { Wrote (variable_at sheet.now n.0).name room.old room.new at result }
{
    room::put(room, at, sheet.name(n))
}

// The length of a variable's name.
pub fn name_len(sheet: &Accepted, n: VariableNumber) -> usize
    requires { n.0 < variable_count sheet.now }
    ensures { result ≡ length (variable_at sheet.now n.0).name }
{
    sheet.name(n).len()
}

// The text of a node, to the front of the room; its bytes.
#[cycle(one_operand_phrase_three_two)]
fn phrase(sheet: &Accepted, node: NodeNumber, room: &mut [u8]) -> usize
    requires { (node.0 < node_count sheet.now) × (length (phrase_at sheet.now node.0) ≤ length room.old) }
    ensures { Wrote (phrase_at sheet.now node.0) room.old room.new 0 result }
{
    let fields = sheet.record(node);
    let kind = fields.kind;
    match kinds::shape_of(kind) {
        Shape::Wrong => 0,
        Shape::Bare => spelling::put_word(room, 0, kind),
        Shape::Valued => spelling::put_value(room, 0, fields.value),
        Shape::Named => put_name(sheet, VariableNumber(fields.a), room, 0),
        Shape::One(_) => one(sheet, fields, room),
        Shape::Two(_, _) => two(sheet, fields, room),
        Shape::Three(_, _, _) => three(sheet, fields, room),
    }
}

// A blank and the text of an operand, from a place of the room on.
#[cycle(one_operand_phrase_three_two)]
pub fn operand(sheet: &Accepted, node: NodeNumber, room: &mut [u8], at: usize) -> usize
    requires { (node.0 < node_count sheet.now) × (at + length (ascii " " ++ phrase_at sheet.now node.0) ≤ length room.old) }
    ensures { Wrote (ascii " " ++ phrase_at sheet.now node.0) room.old room.new at result }
{
    let next = room::put(room, at, &room::BLANK);
    next + phrase(sheet, node, &mut room[next..])
}

// The text of a node with one operand. One function over a slice of operands takes more stack a level than a call has.
#[cycle(one_operand_phrase_three_two)]
fn one(sheet: &Accepted, fields: Record, room: &mut [u8]) -> usize
    requires { (fields.a < node_count sheet.now) × (length (one_text sheet.now fields) ≤ length room.old) }
    ensures { Wrote (one_text sheet.now fields) room.old room.new 0 result }
{
    let next = spelling::put_word(room, 0, fields.kind);
    operand(sheet, NodeNumber(fields.a), room, next)
}

// The text of a node with two operands: as with the first alone, and the second.
#[cycle(one_operand_phrase_three_two)]
fn two(sheet: &Accepted, fields: Record, room: &mut [u8]) -> usize
    requires { (fields.a < node_count sheet.now) × (fields.b < node_count sheet.now) × (length (two_text sheet.now fields) ≤ length room.old) }
    ensures { Wrote (two_text sheet.now fields) room.old room.new 0 result }
{
    let next = one(sheet, fields, room);
    operand(sheet, NodeNumber(fields.b), room, next)
}

// The text of a node with three operands: as with the first two, and the third.
#[cycle(one_operand_phrase_three_two)]
fn three(sheet: &Accepted, fields: Record, room: &mut [u8]) -> usize
    requires { (fields.a < node_count sheet.now) × (fields.b < node_count sheet.now) × (fields.c < node_count sheet.now) × (length (three_text sheet.now fields) ≤ length room.old) }
    ensures { Wrote (three_text sheet.now fields) room.old room.new 0 result }
{
    let next = two(sheet, fields, room);
    operand(sheet, NodeNumber(fields.c), room, next)
}

// The length of a node's word.
fn own_len(sheet: &Accepted, node: NodeNumber) -> usize
    requires { node.0 < node_count sheet.now }
    ensures { result ≡ length (word_at sheet.now node.0) }
{
    let fields = sheet.record(node);
    let kind = fields.kind;
    match kinds::shape_of(kind) {
        Shape::Valued => spelling::value_len(fields.value),
        Shape::Named => name_len(sheet, VariableNumber(fields.a)),
        _ => spelling::word_len(kind),
    }
}

// The length of the words of the first nodes, with a separator behind each.
pub fn words_len(sheet: &Accepted, count: usize) -> usize
    requires { count ≤ node_count sheet.now }
    ensures { result ≡ words_bytes sheet.now count }
{
    // For its clause `accepted` alone: so the count fits 16 bits.
    sheet.bytes();
    let mut size = 0;
    for i in 0..count as u16 {
        size += own_len(sheet, NodeNumber(i)) + 1;
    }
    size
}
