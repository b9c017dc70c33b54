// The nodes of a plain text's expression, built into a sheet: operands first.
#![tactic(auto)]

ghost use Rattle.std.specs.Prelude.{◌≡◌, ◌+◌, ◌-◌, ◌≤◌, ◌<◌, true, length, take, drop};
ghost use Rattle.numbers.specs.Two.{enc};
ghost use Rattle.numbers.specs.Bytes.{word_limit};
ghost use Rattle.kinds.specs.declared.Kind.{Kind};
ghost use Rattle.layout.specs.Limits.{most_variables, most_nodes, node_bytes, node_place};
ghost use Rattle.layout.specs.Nodes.{node};
ghost use Rattle.texts.specs.Numbers.{is_number, number_of};
ghost use Rattle.texts.specs.WordKinds.{kind_named};
ghost use Rattle.texts.specs.Places.{names_in};
ghost use Rattle.building.specs.Building.{leaf_record, Put, Buildable, OneBuildable, TwoBuildable, ThreeBuildable, Builds, BuildsOne, BuildsTwo, BuildsThree};

use kinds::{Kind, Record, Shape};
use numbers::NodeNumber;

// Where an expression's words end, and the number of the node behind its own.
#[derive(Clone, Copy, Debug, PartialEq, Eq)]
pub struct Built {
    pub end: usize,
    pub next: usize,
}

// The record of a kind with its operands.
fn operator(kind: Kind, a: usize, b: usize, c: usize) -> Record
    requires { (a < word_limit) × (b < word_limit) × (c < word_limit) }
    ensures { result ≡ node kind a b c 0 }
{
    Record {
        kind,
        a: a as u16,
        b: b as u16,
        c: c as u16,
        value: 0,
        spare: 0,
    }
}

// The record of a number.
fn constant(word: &[u8]) -> Record
    requires { is_number word.now ≡ true }
    ensures { result ≡ node Kind.Constant 0 0 0 (enc 16 (number_of word.now)) }
{
    Record {
        value: sheets::bits(words::number_of(word)),
        ..operator(Kind::Constant, 0, 0, 0)
    }
}

// The record of a word that is no kind's: a number's, or that of the variable with this name.
fn leaf(text: &[u8], count: usize, word: &[u8]) -> Record
    requires { count ≤ most_variables }
    ensures { result ≡ leaf_record (names_in count text.now) word.now }
{
    if words::is_number(word) {
        constant(word)
    } else {
        operator(
            Kind::Variable,
            words::variable_named(text, count, word),
            0,
            0,
        )
    }
}

// The last record of an expression, whose words end there.
fn put(sheet: &mut [u8], fields: Record, node: usize, end: usize) -> Built
    requires { (node < most_nodes) × (node_place node + node_bytes ≤ length sheet.old) }
    ensures { Put fields node end sheet.old result sheet.new }
{
    sheets::put_node(sheet, NodeNumber(node as u16), fields);
    Built {
        end,
        next: node + 1,
    }
}

// The expression whose first word stands there, its first node being this one.
#[cycle(build_one_three_two)]
pub fn build(text: &[u8], count: usize, at: usize, sheet: &mut [u8], node: usize) -> Built
    requires { Buildable text.now count at (length sheet.old) node }
    ensures { Builds text.now count at node sheet.old result sheet.new }
{
    let end = words::word_end(text, at);
    let word = &text[at..end];
    let kind = words::kind_named(word);
    match kinds::shape_of(kind) {
        Shape::Wrong => put(sheet, leaf(text, count, word), node, end),
        Shape::Bare => put(sheet, operator(kind, 0, 0, 0), node, end),
        Shape::Valued | Shape::Named => Built { end, next: node },
        Shape::One(_) => one(text, count, kind, end + 1, sheet, node),
        Shape::Two(_, _) => two(text, count, kind, end + 1, sheet, node),
        Shape::Three(_, _, _) => three(text, count, kind, end + 1, sheet, node),
    }
}

// A function for each number of operands, since specs/Building says of each what it asks and what it builds.

// A kind with one operand, which stands there.
#[cycle(build_one_three_two)]
fn one(text: &[u8], count: usize, kind: Kind, at: usize, sheet: &mut [u8], node: usize) -> Built
    requires { OneBuildable text.now count kind at (length sheet.old) node }
    ensures { BuildsOne text.now count kind at node sheet.old result sheet.new }
{
    let a = build(text, count, at, sheet, node);
    put(sheet, operator(kind, a.next - 1, 0, 0), a.next, a.end)
}

// A kind with two operands, the first of which stands there.
#[cycle(build_one_three_two)]
fn two(text: &[u8], count: usize, kind: Kind, at: usize, sheet: &mut [u8], node: usize) -> Built
    requires { TwoBuildable text.now count kind at (length sheet.old) node }
    ensures { BuildsTwo text.now count kind at node sheet.old result sheet.new }
{
    let a = build(text, count, at, sheet, node);
    let b = build(text, count, a.end + 1, sheet, a.next);
    put(
        sheet,
        operator(kind, a.next - 1, b.next - 1, 0),
        b.next,
        b.end,
    )
}

// A kind with three operands, the first of which stands there.
#[cycle(build_one_three_two)]
fn three(text: &[u8], count: usize, kind: Kind, at: usize, sheet: &mut [u8], node: usize) -> Built
    requires { ThreeBuildable text.now count kind at (length sheet.old) node }
    ensures { BuildsThree text.now count kind at node sheet.old result sheet.new }
{
    let a = build(text, count, at, sheet, node);
    let b = build(text, count, a.end + 1, sheet, a.next);
    let c = build(text, count, b.end + 1, sheet, b.next);
    put(
        sheet,
        operator(kind, a.next - 1, b.next - 1, c.next - 1),
        c.next,
        c.end,
    )
}
