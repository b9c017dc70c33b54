// The terms of a script, written into lent room: the text of a node, and how long it is.
#![tactic(auto)]

ghost use Rattle.std.specs.Prelude.{◌≡◌, ◌++◌, ◌+◌, ◌≤◌, ◌<◌, length};
ghost use Rattle.lists.specs.Ascii.{ascii};
ghost use Rattle.layout.specs.Parts.{node_count};
ghost use Rattle.room.specs.Room.{Wrote};
ghost use Rattle.terms.specs.Texts.{text_at, one_open, two_open, three_open};

use kinds::{Record, Shape};
use numbers::{NodeNumber, VariableNumber};
use pieces::{CLOSE, CONSTANT_BYTES, OPEN};
use reading::accepted::Accepted;
use room::BLANK;

// The bytes of a node's text besides its word and its operands, by the number of these.
const ONE_BYTES: usize = OPEN.len() + BLANK.len() + CLOSE.len();

const TWO_BYTES: usize = ONE_BYTES + BLANK.len();

const THREE_BYTES: usize = TWO_BYTES + BLANK.len();

// The text of a node, to the front of the room; its bytes.
#[cycle(one_operand_term_three_two)]
fn term(sheet: &Accepted, node: NodeNumber, room: &mut [u8]) -> usize
    requires { (node.0 < node_count sheet.now) × (length (text_at sheet.now node.0) ≤ length room.old) }
    ensures { Wrote (text_at sheet.now node.0) room.old room.new 0 result }
{
    let fields = sheet.record(node);
    let kind = fields.kind;
    match kinds::shape_of(kind) {
        Shape::Wrong => 0,
        Shape::Bare => pieces::put_word(room, 0, kind),
        Shape::Valued => pieces::constant(room, fields.value),
        Shape::Named => pieces::symbol(room, 0, VariableNumber(fields.a)),
        Shape::One(_) => {
            let end = one(sheet, fields, room);
            room::put(room, end, &CLOSE)
        }
        Shape::Two(_, _) => {
            let end = two(sheet, fields, room);
            room::put(room, end, &CLOSE)
        }
        Shape::Three(_, _, _) => {
            let end = three(sheet, fields, room);
            room::put(room, end, &CLOSE)
        }
    }
}

// A blank and the text of an operand, from a place of the room on.
#[cycle(one_operand_term_three_two)]
pub fn operand(sheet: &Accepted, node: NodeNumber, room: &mut [u8], at: usize) -> usize
    requires { (node.0 < node_count sheet.now) × (at + length (ascii " " ++ text_at sheet.now node.0) ≤ length room.old) }
    ensures { Wrote (ascii " " ++ text_at sheet.now node.0) room.old room.new at result }
{
    let next = room::put(room, at, &BLANK);
    next + term(sheet, node, &mut room[next..])
}

// The text of a node with one operand, but for its end. One function over a slice of operands takes more stack a level than a call has.
#[cycle(one_operand_term_three_two)]
fn one(sheet: &Accepted, fields: Record, room: &mut [u8]) -> usize
    requires { (fields.a < node_count sheet.now) × (length (one_open sheet.now fields) ≤ length room.old) }
    ensures { Wrote (one_open sheet.now fields) room.old room.new 0 result }
{
    let next = pieces::head(room, fields.kind);
    operand(sheet, NodeNumber(fields.a), room, next)
}

// The text of a node with two operands, but for its end: as with the first alone, and the second.
#[cycle(one_operand_term_three_two)]
fn two(sheet: &Accepted, fields: Record, room: &mut [u8]) -> usize
    requires { (fields.a < node_count sheet.now) × (fields.b < node_count sheet.now) × (length (two_open sheet.now fields) ≤ length room.old) }
    ensures { Wrote (two_open sheet.now fields) room.old room.new 0 result }
{
    let next = one(sheet, fields, room);
    operand(sheet, NodeNumber(fields.b), room, next)
}

// The text of a node with three operands, but for its end: as with the first two, and the third.
#[cycle(one_operand_term_three_two)]
fn three(sheet: &Accepted, fields: Record, room: &mut [u8]) -> usize
    requires { (fields.a < node_count sheet.now) × (fields.b < node_count sheet.now) × (fields.c < node_count sheet.now) × (length (three_open sheet.now fields) ≤ length room.old) }
    ensures { Wrote (three_open sheet.now fields) room.old room.new 0 result }
{
    let next = two(sheet, fields, room);
    operand(sheet, NodeNumber(fields.c), room, next)
}

// The length of a node's text.
pub fn term_len(sheet: &Accepted, node: NodeNumber) -> usize
    requires { node.0 < node_count sheet.now }
    ensures { result ≡ length (text_at sheet.now node.0) }
{
    let fields = sheet.record(node);
    let kind = fields.kind;
    let size = pieces::word_len(kind);
    match kinds::shape_of(kind) {
        Shape::Wrong => 0,
        Shape::Bare => size,
        Shape::Valued => CONSTANT_BYTES,
        Shape::Named => pieces::symbol_len(VariableNumber(fields.a)),
        Shape::One(_) => size + ONE_BYTES + term_len(sheet, NodeNumber(fields.a)),
        Shape::Two(_, _) => {
            size + TWO_BYTES
                + term_len(sheet, NodeNumber(fields.a))
                + term_len(sheet, NodeNumber(fields.b))
        }
        Shape::Three(_, _, _) => {
            size + THREE_BYTES
                + term_len(sheet, NodeNumber(fields.a))
                + term_len(sheet, NodeNumber(fields.b))
                + term_len(sheet, NodeNumber(fields.c))
        }
    }
}
