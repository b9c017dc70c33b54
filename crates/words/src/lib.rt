// The words of a plain text: where they end, and what they are.
#![tactic(auto)]

ghost use Rattle.std.specs.Prelude.{◌≡◌, true, not, ◌&&◌, ◌+◌, ◌-◌, ◌*◌, ◌≤◌, leb, pos, neg_ℤ, length, drop};
ghost use Rattle.lists.specs.Names.{same_bytes};
ghost use Rattle.kinds.specs.Kinds.{row};
ghost use Rattle.texts.specs.Texts.{operands_behind};
ghost use Rattle.grammar.specs.Words.{word_length};
ghost use Rattle.texts.specs.Numbers.{is_digit, all_digits, value_from, spare_zero, is_decimal, zero_first, is_number, number_of};
ghost use Rattle.texts.specs.WordKinds.{kind_named};
ghost use Rattle.texts.specs.Places.{separates, first_word, behind_var, behind_line, is_plain_name, index_in, names_in};
ghost use Rattle.words.specs.Operands.{behind_said};
ghost use Rattle.texts.specs.Counts.{occurrences};

use kinds::{Kind, Shape};
use layout::MOST_NAME_BYTES;

pub mod whole;

// The bytes before a line's name, `var` and a space, and before the goal's expression, `goal` and a space.
pub const NAME_START: usize = 4;

pub const GOAL_START: usize = 5;

#[tactic(auto, unfolding(texts::specs::Places::separates))]
fn separates(c: u8) -> bool
    ensures { result ≡ separates c }
{
    c == b' ' || c == b'\n'
}

// Where the word that begins at a place ends: at the next space or line feed, or at the text's end.
pub fn word_end(text: &[u8], start: usize) -> usize
    requires { start ≤ length text.now }
    ensures { result ≡ start + word_length separates (drop start text.now) }
{
    match text[start..].iter().position(|c| separates(*c)) {
        Some(size) => start + size,
        None => text.len(),
    }
}

// The kinds that have a plain word. No table of texts: the archive has no data with addresses in it, which could be written.
pub const WORDED: [Kind; 15] = [
    Kind::True,
    Kind::False,
    Kind::Not,
    Kind::And,
    Kind::Or,
    Kind::Implies,
    Kind::Iff,
    Kind::Equal,
    Kind::Less,
    Kind::AtMost,
    Kind::Minus,
    Kind::Sum,
    Kind::Difference,
    Kind::Product,
    Kind::If,
];

// A kind's plain word. The table has the form of that in pieces, with other words: one match for both would be longer.
pub fn word_of(kind: Kind) -> &'static [u8]
    ensures { result.now ≡ (row kind).plain }
{
    match kind {
        Kind::Unknown | Kind::Constant | Kind::Variable => b"",
        Kind::True => b"true",
        Kind::False => b"false",
        Kind::Not => b"not",
        Kind::And => b"and",
        Kind::Or => b"or",
        Kind::Implies => b"implies",
        Kind::Iff => b"iff",
        Kind::Equal => b"eq",
        Kind::Less => b"lt",
        Kind::AtMost => b"le",
        Kind::Minus => b"neg",
        Kind::Sum => b"add",
        Kind::Difference => b"sub",
        Kind::Product => b"mul",
        Kind::If => b"if",
    }
}

// Whether this is a kind's plain word.
fn is_word(word: &[u8], kind: Kind) -> bool
    ensures { result ≡ same_bytes (row kind).plain word.now }
{
    records::same_bytes(word_of(kind), word)
}

// The kind whose plain word this is; Unknown where it is none's.
#[tactic(auto, unfolding(texts::specs::WordKinds::kind_named, texts::specs::WordKinds::kind_in))]
pub fn kind_named(word: &[u8]) -> Kind
    ensures { result ≡ kind_named word.now }
{
    if is_word(word, Kind::True) {
        Kind::True
    } else if is_word(word, Kind::False) {
        Kind::False
    } else if is_word(word, Kind::Not) {
        Kind::Not
    } else if is_word(word, Kind::And) {
        Kind::And
    } else if is_word(word, Kind::Or) {
        Kind::Or
    } else if is_word(word, Kind::Implies) {
        Kind::Implies
    } else if is_word(word, Kind::Iff) {
        Kind::Iff
    } else if is_word(word, Kind::Equal) {
        Kind::Equal
    } else if is_word(word, Kind::Less) {
        Kind::Less
    } else if is_word(word, Kind::AtMost) {
        Kind::AtMost
    } else if is_word(word, Kind::Minus) {
        Kind::Minus
    } else if is_word(word, Kind::Sum) {
        Kind::Sum
    } else if is_word(word, Kind::Difference) {
        Kind::Difference
    } else if is_word(word, Kind::Product) {
        Kind::Product
    } else if is_word(word, Kind::If) {
        Kind::If
    } else {
        Kind::Unknown
    }
}

// One more digit behind a number.
#[tactic(auto, using(crate::proofs::Summing::digit_least))]
fn with_digit(n: u32, c: u8) -> u32
    requires { (n ≤ 32768) × (is_digit c ≡ true) }
    ensures { result ≡ 10 * n + (c - 48) }
{
    10 * n + (c - b'0') as u32
}

// Whether the first byte is a zero.
fn zero_first(digits: &[u8]) -> bool
    ensures { result ≡ zero_first digits.now }
{
    digits.first() == Some(&b'0')
}

// Whether a zero stands in front of other digits.
fn spare_zero(digits: &[u8]) -> bool
    ensures { result ≡ spare_zero digits.now }
{
    digits.len() >= 2 && zero_first(digits)
}

// Whether these are digits whose number is at most so much.
fn at_most(digits: &[u8], most: u32) -> bool
    requires { most ≤ 32768 }
    ensures { result ≡ all_digits digits.now && leb (value_from 0 digits.now) most }
{
    let mut n = 0;
    for c in digits {
        if !c.is_ascii_digit() {
            return false;
        }
        n = with_digit(n, *c);
        if most < n {
            return false;
        }
    }
    true
}

// A decimal number of at most so much.
#[tactic(auto, using(crate::proofs::Summing::decimal_tests))]
fn is_decimal(digits: &[u8], most: u32) -> bool
    requires { most ≤ 32768 }
    ensures { result ≡ is_decimal most digits.now }
{
    !digits.is_empty() && !spare_zero(digits) && at_most(digits, most)
}

// What may stand behind a minus sign.
fn is_magnitude(digits: &[u8]) -> bool
    ensures { result ≡ not (zero_first digits.now) && is_decimal 32768 digits.now }
{
    !zero_first(digits) && is_decimal(digits, 32768)
}

// Whether this is a decimal number of 16 bits.
#[tactic(auto, using(crate::proofs::Summing::signed_tests))]
pub fn is_number(word: &[u8]) -> bool
    ensures { result ≡ is_number word.now }
{
    match word.strip_prefix(b"-") {
        Some(digits) => is_magnitude(digits),
        None => is_decimal(word, 32767),
    }
}

// The number of digits that is at most 32,768.
fn value_of(digits: &[u8]) -> u32
    requires { is_decimal 32768 digits.now ≡ true }
    ensures { (result ≡ value_from 0 digits.now) × (result ≤ 32768) }
{
    let mut n = 0;
    for c in digits {
        n = with_digit(n, *c);
    }
    n
}

// The number with a minus sign.
fn negative(n: u32) -> i16
    requires { n ≤ 32768 }
    ensures { result ≡ neg_ℤ (pos n) }
{
    -(n as i32) as i16
}

// A number's value.
#[tactic(auto, using(crate::proofs::Summing::value_tests, crate::proofs::Summing::minus_decimal, crate::proofs::Summing::plain_decimal, crate::proofs::Summing::plain_small))]
pub fn number_of(word: &[u8]) -> i16
    requires { is_number word.now ≡ true }
    ensures { result ≡ number_of word.now }
{
    match word.strip_prefix(b"-") {
        Some(digits) => negative(value_of(digits)),
        None => value_of(word) as i16,
    }
}

// How many operands stand behind a kind's plain word; nothing where it has no word.
pub fn operands_behind(kind: Kind) -> Option<usize>
    ensures { behind_said result ≡ operands_behind (row kind).shape }
{
    match kinds::shape_of(kind) {
        Shape::Wrong | Shape::Valued | Shape::Named => None,
        Shape::Bare => Some(0),
        Shape::One(_) => Some(1),
        Shape::Two(_, _) => Some(2),
        Shape::Three(_, _, _) => Some(3),
    }
}

// Whether this is a name, and no word.
#[tactic(auto, using(crate::proofs::Naming::plain_tests, crate::proofs::Naming::behind_none))]
pub fn is_plain_name(word: &[u8]) -> bool
    ensures { result ≡ is_plain_name word.now }
{
    word.len() <= MOST_NAME_BYTES
        && records::name_right(word)
        && operands_behind(kind_named(word)).is_none()
}

// Behind the next line feed from a place on, or the text's end.
pub fn next_line(text: &[u8], from: usize) -> usize
    requires { from ≤ length text.now }
    ensures { (result ≤ length text.now) × (drop result text.now ≡ behind_line (drop from text.now)) }
{
    match text[from..].iter().position(|c| *c == b'\n') {
        Some(size) => from + size + 1,
        None => text.len(),
    }
}

// Where the name of a line starts; the text's end where the line is too short.
#[tactic(auto, using(crate::proofs::Naming::name_start))]
fn name_place(text: &[u8], line: usize) -> usize
    requires { line ≤ length text.now }
    ensures { (result ≤ length text.now) × (drop result text.now ≡ drop behind_var (drop line text.now)) }
{
    text.len().min(line + NAME_START)
}

// The name of a line.
pub fn name_at(text: &[u8], line: usize) -> &[u8]
    requires { line ≤ length text.now }
    ensures { result.now ≡ first_word (drop behind_var (drop line text.now)) }
{
    let start = name_place(text, line);
    let end = word_end(text, start);
    &text[start..end]
}

// The number of the first of so many variables that has this name; so many where none has: no Option, since who asks compares it with
// the count (`Places: index_in`).
pub fn variable_named(text: &[u8], count: usize, word: &[u8]) -> usize
    ensures { result ≡ index_in (names_in count text.now) word.now }
{
    let mut line = 0;
    for i in 0..count {
        if name_at(text, line) == word {
            return i;
        }
        line = next_line(text, line);
    }
    count
}

// How often a byte stands in a text.
#[tactic(auto, using(crate::proofs::Scanning::occurrences_counted))]
pub fn occurrences(text: &[u8], byte: u8) -> usize
    ensures { result ≡ occurrences byte text.now }
{
    text.iter().filter(|c| **c == byte).count()
}
