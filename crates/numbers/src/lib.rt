// Kinds of number, numbers from bytes, and ranges of integers worked out exactly.
#![tactic(auto)]

ghost use Rattle.std.specs.Prelude.{◌≡◌, ◌+◌, ◌<◌, length};
ghost use Rattle.numbers.specs.Two.{dec};
ghost use Rattle.numbers.specs.Bytes.{byte_limit, byte_at, u16_at, i16_at};
ghost use Rattle.numbers.specs.Ranges.{◌⋯◌, NarrowEnds, is_narrow, has_narrow_ends, minus_of, sum_of, difference_of, span_of, product_of, union_of};

// The numbers of variables and of nodes: two types, so that neither passes for the other.
#[derive(Clone, Copy, Debug, PartialEq, Eq, PartialOrd, Ord)]
pub struct VariableNumber(pub u16);

#[derive(Clone, Copy, Debug, PartialEq, Eq, PartialOrd, Ord)]
pub struct NodeNumber(pub u16);

// The integers from low to high. What an operation takes has 16 bits at both ends, and what it gives need not: that is a clause, and no type.
#[derive(Clone, Copy, Debug, PartialEq, Eq)]
pub struct Range {
    pub low: i32,
    pub high: i32,
}

// A byte, as a wide number.
pub fn byte_at(s: &[u8], at: usize) -> u16
    requires { at < length s.now }
    ensures { (result ≡ byte_at s.now at) × (result < byte_limit) }
{
    u16::from(s[at])
}

// The unsigned number in two bytes.
pub fn u16_at(s: &[u8], at: usize) -> u16
    requires { at + 1 < length s.now }
    ensures { result ≡ u16_at s.now at }
{
    u16::from_le_bytes([s[at], s[at + 1]])
}

// The number that 16 bits stand for in two's complement.
#[tactic(auto, unfolding(crate::specs::Two::dec))]
pub fn signed(n: u16) -> i16
    ensures { result ≡ dec 16 n }
{
    n.cast_signed()
}

// The signed number in two bytes.
pub fn i16_at(s: &[u8], at: usize) -> i16
    requires { at + 1 < length s.now }
    ensures { result ≡ i16_at s.now at }
{
    signed(u16_at(s, at))
}

// The range of two numbers of 16 bits.
pub fn range_of(low: i16, high: i16) -> Range
    ensures { result ≡ low ⋯ high }
{
    Range {
        low: i32::from(low),
        high: i32::from(high),
    }
}

pub fn minus(a: Range) -> Range
    requires { NarrowEnds a }
    ensures { result ≡ minus_of a }
{
    Range {
        low: -a.high,
        high: -a.low,
    }
}

pub fn sum(a: Range, b: Range) -> Range
    requires { NarrowEnds a × NarrowEnds b }
    ensures { result ≡ sum_of a b }
{
    Range {
        low: a.low + b.low,
        high: a.high + b.high,
    }
}

pub fn difference(a: Range, b: Range) -> Range
    requires { NarrowEnds a × NarrowEnds b }
    ensures { result ≡ difference_of a b }
{
    Range {
        low: a.low - b.high,
        high: a.high - b.low,
    }
}

// From the least to the greatest of four numbers.
fn span(p: i32, q: i32, r: i32, s: i32) -> Range
    ensures { result ≡ span_of p q r s }
{
    Range {
        low: p.min(q).min(r.min(s)),
        high: p.max(q).max(r.max(s)),
    }
}

pub fn product(a: Range, b: Range) -> Range
    requires { NarrowEnds a × NarrowEnds b }
    ensures { result ≡ product_of a b }
{
    span(
        a.low * b.low,
        a.low * b.high,
        a.high * b.low,
        a.high * b.high,
    )
}

// The least range that has both.
pub fn union(a: Range, b: Range) -> Range
    ensures { result ≡ union_of a b }
{
    Range {
        low: a.low.min(b.low),
        high: a.high.max(b.high),
    }
}

#[tactic(auto, using(crate::proofs::NarrowLaws::is_narrow_tried))]
fn narrow(x: i32) -> bool
    ensures { result ≡ is_narrow x }
{
    i16::try_from(x).is_ok()
}

// Whether both ends have 16 bits.
#[tactic(auto, unfolding(crate::specs::Ranges::has_narrow_ends))]
pub fn fits16(a: Range) -> bool
    ensures { result ≡ has_narrow_ends a }
{
    narrow(a.low) && narrow(a.high)
}
