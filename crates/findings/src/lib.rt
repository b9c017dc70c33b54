// What a node is found to be, from the findings of its operands; refusals 7 and 8.
#![tactic(auto)]

ghost use Rattle.std.specs.Prelude.{◌≡◌, ◌≤◌, ◌<◌, length};
ghost use Rattle.numbers.specs.Two.{dec};
ghost use Rattle.numbers.specs.Ranges.{◌⋯◌, NarrowEnds};
ghost use Rattle.layout.specs.Limits.{block_bytes, most_variables, most_nodes};
ghost use Rattle.layout.specs.Starts.{shape_at};
ghost use Rattle.layout.specs.Parts.{variable_count};
ghost use Rattle.findings.specs.Findings.{no_range, result_of, domain_at, FindingFits};
ghost use Rattle.findings.specs.Steps.{fitted, operand_of, one_step, two_step, three_step, step_of, Reaches};
ghost use Rattle.findings.specs.Kept.{packed_of, unpacked_of, findings_in};

use kept::Kept;
use kinds::{Kind, Record, Shape};
use layout::MOST_NODES;
use meaning::Sort;
use numbers::{NodeNumber, Range, VariableNumber};
use refusals::Cause;

pub mod kept;

// A truth value, or an integer in a range.
#[derive(Clone, Copy, Debug, PartialEq, Eq)]
pub enum Finding {
    Truth,
    Integer(Range),
}

// The range that stands where there is none, since a kind's rule takes three ranges whatever it has (`Findings: no_range`).
const NO_RANGE: Range = Range { low: 0, high: 0 };

// A finding as it is kept.
pub fn packed(f: Finding) -> Kept
    requires { FindingFits f }
    ensures { result ≡ packed_of f }
{
    let Finding::Integer(r) = f else {
        return Kept::Truth;
    };
    Kept::Integer(r.low as i16, r.high as i16)
}

fn unpacked(k: Kept) -> Finding
    ensures { (result ≡ unpacked_of k) × FindingFits result }
{
    match k {
        Kept::Truth => Finding::Truth,
        Kept::Integer(low, high) => Finding::Integer(numbers::range_of(low, high)),
    }
}

// What a node was found to be.
pub fn finding_at(n: NodeNumber, findings: &[Kept; MOST_NODES]) -> Finding
    requires { n.0 < most_nodes }
    ensures { (result ≡ findings_in findings.now n.0) × FindingFits result }
{
    unpacked(findings[n.0 as usize])
}

// The range of an operand found to be f, where the sort s is asked for.
fn of_sort(f: Finding, s: Sort) -> Result<Range, Cause>
    ensures { result ≡ operand_of f s }
{
    match s {
        Sort::Truth => {
            let Finding::Truth = f else {
                return Err(Cause::Sort);
            };
            Ok(NO_RANGE)
        }
        Sort::Integer => {
            let Finding::Integer(p) = f else {
                return Err(Cause::Sort);
            };
            Ok(p)
        }
    }
}

// What a kind makes of its operands' ranges.
fn result(kind: Kind, p: Range, q: Range, o: Range) -> Finding
    requires { NarrowEnds p × NarrowEnds q }
    ensures { result ≡ result_of kind p q o }
{
    match kind {
        Kind::Unknown
        | Kind::True
        | Kind::False
        | Kind::Not
        | Kind::And
        | Kind::Or
        | Kind::Implies
        | Kind::Iff
        | Kind::Equal
        | Kind::Less
        | Kind::AtMost => Finding::Truth,
        Kind::Constant | Kind::Variable => Finding::Integer(p),
        Kind::Minus => Finding::Integer(numbers::minus(p)),
        Kind::Sum => Finding::Integer(numbers::sum(p, q)),
        Kind::Difference => Finding::Integer(numbers::difference(p, q)),
        Kind::Product => Finding::Integer(numbers::product(p, q)),
        Kind::If => Finding::Integer(numbers::union(q, o)),
    }
}

// The same, where its range has 16 bits at both ends.
fn narrow_result(kind: Kind, p: Range, q: Range, o: Range) -> Result<Finding, Cause>
    requires { NarrowEnds p × NarrowEnds q }
    ensures { result ≡ fitted (result_of kind p q o) }
{
    match result(kind, p, q, o) {
        Finding::Integer(r) if !numbers::fits16(r) => Err(Cause::Range),
        f => Ok(f),
    }
}

// Of one range.
fn from_one(kind: Kind, p: Range) -> Result<Finding, Cause>
    requires { NarrowEnds p }
    ensures { result ≡ fitted (result_of kind p no_range no_range) }
{
    narrow_result(kind, p, NO_RANGE, NO_RANGE)
}

#[tactic(auto, unfolding(crate::specs::Steps::one_step))]
fn one_operand(kind: Kind, s: Sort, f: Finding) -> Result<Finding, Cause>
    requires { FindingFits f }
    ensures { result ≡ one_step kind s f }
{
    let p = of_sort(f, s)?;
    from_one(kind, p)
}

#[tactic(auto, unfolding(crate::specs::Steps::two_step))]
fn two_operands(kind: Kind, s: Sort, t: Sort, f: Finding, g: Finding) -> Result<Finding, Cause>
    requires { FindingFits f × FindingFits g }
    ensures { result ≡ two_step kind s t f g }
{
    let p = of_sort(f, s)?;
    let q = of_sort(g, t)?;
    narrow_result(kind, p, q, NO_RANGE)
}

#[tactic(auto, unfolding(crate::specs::Steps::three_step))]
fn three_operands(
    kind: Kind,
    s: Sort,
    t: Sort,
    u: Sort,
    f: Finding,
    g: Finding,
    h: Finding,
) -> Result<Finding, Cause>
    requires { FindingFits f × FindingFits g }
    ensures { result ≡ three_step kind s t u f g h }
{
    let p = of_sort(f, s)?;
    let q = of_sort(g, t)?;
    let o = of_sort(h, u)?;
    narrow_result(kind, p, q, o)
}

fn constant(value: u16) -> Range
    ensures { (result ≡ dec 16 value ⋯ dec 16 value) × NarrowEnds result }
{
    let c = numbers::signed(value);
    numbers::range_of(c, c)
}

// What a node with the record r is found to be, where `findings` has what was found of the nodes before it.
pub fn node_step(sheet: &[u8], r: Record, findings: &[Kept; MOST_NODES]) -> Result<Finding, Cause>
    requires { (block_bytes ≤ length sheet.now) × (variable_count sheet.now ≤ most_variables) × Reaches (shape_at r) r (variable_count sheet.now) }
    ensures { result ≡ step_of (domain_at sheet.now) r (findings_in findings.now) }
{
    let kind = r.kind;
    match kinds::shape_of(kind) {
        Shape::Wrong | Shape::Bare => from_one(kind, NO_RANGE),
        Shape::Valued => from_one(kind, constant(r.value)),
        Shape::Named => from_one(kind, records::domain(sheet, VariableNumber(r.a))),
        Shape::One(s) => {
            let f = finding_at(NodeNumber(r.a), findings);
            one_operand(kind, s, f)
        }
        Shape::Two(s, t) => {
            let f = finding_at(NodeNumber(r.a), findings);
            let g = finding_at(NodeNumber(r.b), findings);
            two_operands(kind, s, t, f, g)
        }
        Shape::Three(s, t, u) => {
            let f = finding_at(NodeNumber(r.a), findings);
            let g = finding_at(NodeNumber(r.b), findings);
            let h = finding_at(NodeNumber(r.c), findings);
            three_operands(kind, s, t, u, f, g, h)
        }
    }
}
