// The kinds of node, the shapes that their records have, and a node's record.
#![tactic(auto)]

ghost use Rattle.std.specs.Prelude.{◌≡◌};
ghost use Rattle.kinds.specs.Kinds.{row, kind_of};

use meaning::Sort;

// Document 01's kinds by their bytes, and one for every byte that names none: no Option, since the table has a row for each record
// (`Kinds: row`).
#[derive(Clone, Copy, Debug, PartialEq, Eq)]
pub enum Kind {
    Unknown,
    True,
    False,
    Not,
    And,
    Or,
    Implies,
    Iff,
    Equal,
    Less,
    AtMost,
    Constant = 16,
    Variable,
    Minus,
    Sum,
    Difference,
    Product,
    If,
}

// Wrong is the shape of an unknown kind, a row of the table too.
// Which fields of the record a kind uses: none, the value, a variable's number, or operands of some sorts.
#[derive(Clone, Copy, Debug, PartialEq, Eq)]
pub enum Shape {
    Wrong,
    Bare,
    Valued,
    Named,
    One(Sort),
    Two(Sort, Sort),
    Three(Sort, Sort, Sort),
}

// A node's record. The value is the field's 16 bits; `spare` is the sum of the bytes that every kind leaves zero.
#[derive(Clone, Copy, Debug, PartialEq, Eq)]
pub struct Record {
    pub kind: Kind,
    pub a: u16,
    pub b: u16,
    pub c: u16,
    pub value: u16,
    pub spare: u16,
}

// A byte's kind.
impl From<u8> for Kind {
    ghost from_gives = { λ b k. k ≡ kind_of b };

    #[tactic(auto, unfolding(crate::specs::Kinds::kind_of, crate::specs::Kinds::find))]
    fn from(byte: u8) -> Kind {
        match byte {
            1 => Kind::True,
            2 => Kind::False,
            3 => Kind::Not,
            4 => Kind::And,
            5 => Kind::Or,
            6 => Kind::Implies,
            7 => Kind::Iff,
            8 => Kind::Equal,
            9 => Kind::Less,
            10 => Kind::AtMost,
            16 => Kind::Constant,
            17 => Kind::Variable,
            18 => Kind::Minus,
            19 => Kind::Sum,
            20 => Kind::Difference,
            21 => Kind::Product,
            22 => Kind::If,
            _ => Kind::Unknown,
        }
    }
}

// The kind that a byte names: the conversion by the name that contracts have for it.
pub fn kind_of(byte: u8) -> Kind
    ensures { result ≡ kind_of byte }
{
    Kind::from(byte)
}

// The shape of a kind's record.
pub fn shape_of(kind: Kind) -> Shape
    ensures { result ≡ (row kind).shape }
{
    match kind {
        Kind::Unknown => Shape::Wrong,
        Kind::True | Kind::False => Shape::Bare,
        Kind::Not => Shape::One(Sort::Truth),
        Kind::And | Kind::Or | Kind::Implies | Kind::Iff => Shape::Two(Sort::Truth, Sort::Truth),
        Kind::Equal | Kind::Less | Kind::AtMost | Kind::Sum | Kind::Difference | Kind::Product =>
            Shape::Two(Sort::Integer, Sort::Integer),
        Kind::Constant => Shape::Valued,
        Kind::Variable => Shape::Named,
        Kind::Minus => Shape::One(Sort::Integer),
        Kind::If => Shape::Three(Sort::Truth, Sort::Integer, Sort::Integer),
    }
}

// The byte of a kind's record.
pub fn byte_of(kind: Kind) -> u8
    ensures { result ≡ (row kind).byte }
{
    kind as u8
}
