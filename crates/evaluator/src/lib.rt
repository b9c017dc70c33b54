// What a node comes to in a case: its operands, which stand before it, are asked first.
#![tactic(auto)]

ghost use Rattle.std.specs.Prelude.{◌≡◌, ◌<◌, take};
ghost use Rattle.numbers.specs.Ranges.{Narrow};
ghost use Rattle.numbers.specs.Two.{dec};
ghost use Rattle.meaning.specs.Value;
ghost use Rattle.meaning.specs.Value.{chosen};
ghost use Rattle.meaning.specs.Rule.{value_in};
ghost use Rattle.meaning.specs.Cases.{holds};
ghost use Rattle.layout.specs.Limits.{most_variables};
ghost use Rattle.layout.specs.Goal.{tree_at};
ghost use Rattle.layout.specs.Parts.{node_count, variable_count, table, rule_in};
ghost use Rattle.evaluator.specs.Numbers.{number_of, is_true, applied_of};
ghost use Rattle.evaluator.specs.Standing.{Standing};

use kinds::{Kind, Shape};
use layout::MOST_VARIABLES;
use numbers::{NodeNumber, VariableNumber};

// The number that the 16 bits of a constant stand for.
fn constant(value: u16) -> i32
    ensures { result ≡ dec 16 value }
{
    i32::from(numbers::signed(value))
}

// A variable's value in a case.
fn variable(case: &[i32; MOST_VARIABLES], n: VariableNumber) -> i32
    requires { n.0 < most_variables }
    ensures { result ≡ value_in case.now n.0 }
{
    case[n.0 as usize]
}

// The second number where the first stands for true, else the third.
fn choose(x: i32, y: i32, z: i32) -> i32
    ensures { result ≡ chosen (is_true x) y z }
{
    if 0 < x { y } else { z }
}

// The number of a node from those of its operands: x, y and z, as many as its kind has.
fn apply(kind: Kind, x: i32, y: i32, z: i32) -> i32
    requires { Narrow x × Narrow y }
    ensures { result ≡ applied_of kind x y z }
{
    match kind {
        Kind::Unknown | Kind::False => 0,
        Kind::True => 1,
        Kind::Not => choose(x, 0, 1),
        Kind::And => choose(x, y, 0),
        Kind::Or => choose(x, 1, y),
        Kind::Implies => choose(x, y, 1),
        Kind::Iff | Kind::Equal => i32::from(x == y),
        Kind::Less => i32::from(x < y),
        Kind::AtMost => i32::from(x <= y),
        Kind::Constant | Kind::Variable => x,
        Kind::Minus => -x,
        Kind::Sum => x + y,
        Kind::Difference => x - y,
        Kind::Product => x * y,
        Kind::If => choose(x, y, z),
    }
}

// The value of a node in a case, as a number: a truth value is 1 or 0, and no enum, as one function gives both sorts (`Numbers: number_of`).
pub fn value(sheet: &[u8], case: &[i32; MOST_VARIABLES], node: NodeNumber) -> i32
    requires { Standing sheet.now case.now × (node.0 < node_count sheet.now) }
    ensures { result ≡ number_of (tree_at (table sheet.now) node.0).0 (Value.value (value_in case.now) (tree_at (table sheet.now) node.0).1) }
{
    let r = records::record_at(sheet, node);
    let kind = r.kind;
    match kinds::shape_of(kind) {
        Shape::Wrong => 0,
        Shape::Bare => apply(kind, 0, 0, 0),
        Shape::Valued => constant(r.value),
        Shape::Named => variable(case, VariableNumber(r.a)),
        Shape::One(_) => {
            let x = value(sheet, case, NodeNumber(r.a));
            apply(kind, x, 0, 0)
        }
        Shape::Two(_, _) => {
            let x = value(sheet, case, NodeNumber(r.a));
            let y = value(sheet, case, NodeNumber(r.b));
            apply(kind, x, y, 0)
        }
        Shape::Three(_, _, _) => {
            let x = value(sheet, case, NodeNumber(r.a));
            let y = value(sheet, case, NodeNumber(r.b));
            let z = value(sheet, case, NodeNumber(r.c));
            apply(kind, x, y, z)
        }
    }
}

// Whether the rule holds in a case: the goal, the last node, is true.
pub fn holds_at(sheet: &[u8], case: &[i32; MOST_VARIABLES]) -> bool
    requires { Standing sheet.now case.now }
    ensures { result ≡ holds (rule_in sheet.now) (take (variable_count sheet.now) case.now) }
{
    let goal = header::node_count(sheet) - 1;
    0 < value(sheet, case, NodeNumber(goal as u16))
}
