// A variable's digits, and the numbers of all variables, in a reply that spells a case.
#![tactic(auto)]

ghost use Rattle.std.specs.Prelude.{◌≡◌, map, ◌≤◌, ◌<◌, length, drop};
ghost use Rattle.numbers.specs.Two.{dec};
ghost use Rattle.smtlib.specs.Tokens.{digit_value};
ghost use Rattle.smtlib.specs.Terms.{number_of};
ghost use Rattle.replies.specs.Replies.{value_bits};
ghost use Rattle.digits.specs.Hashes.{place_behind, size_at, base_at, number_at, digits_place, digits_size};
ghost use Rattle.digits.specs.Ready.{SixteenBits, Based, CaseSpelled, Numbered};

use layout::MOST_VARIABLES;
use replies::{BINARY_DIGITS, HEX_DIGITS};

// Where a variable's digits start, and how many they are.
#[derive(Clone, Copy, Debug, PartialEq, Eq)]
pub struct Span {
    pub start: usize,
    pub size: usize,
}

// What the letter before a value's digits says of them.
#[derive(Clone, Copy)]
struct Base {
    number: u16,
    size: usize,
}

// The place behind the first hash from a place on, or the length where there is none.
fn behind(reply: &[u8], from: usize) -> usize
    requires { from ≤ length reply.now }
    ensures { result ≡ place_behind 0 from (drop from reply.now) }
{
    match reply[from..].iter().position(|c| *c == b'#') {
        Some(k) => from + k + 1,
        None => reply.len(),
    }
}

// The place behind hash number i.
fn behind_hash(reply: &[u8], i: usize) -> usize
    ensures { result ≡ place_behind i 0 reply.now }
{
    let mut p = 0;
    for _k in 0..i {
        p = behind(reply, p);
    }
    behind(reply, p)
}

// The base of the digits behind an `x` or a `b`, and how many they are.
fn base_at(reply: &[u8], p: usize) -> Base
    requires { p < length reply.now }
    ensures number { result.number ≡ base_at reply.now p }
    ensures size { result.size ≡ size_at reply.now p }
{
    if reply[p] == b'x' {
        return Base {
            number: 16,
            size: HEX_DIGITS,
        };
    }
    Base {
        number: 2,
        size: BINARY_DIGITS,
    }
}

// The number of digits to a base.
fn number(digits: &[u8], base: u16) -> u16
    requires { SixteenBits base digits.now }
    ensures { result ≡ number_of base (map digit_value digits.now) }
{
    let mut n = 0;
    for digit in digits {
        n = n * base + u16::from(replies::digit(*digit));
    }
    n
}

// The value behind an `x` or a `b`, in two's complement.
fn value_at(reply: &[u8], p: usize) -> i32
    requires { Based reply.now p }
    ensures { result ≡ dec value_bits (number_at reply.now p) }
{
    let base = base_at(reply, p);
    let start = p + 1;
    let n = number(&reply[start..start + base.size], base.number);
    i32::from(numbers::signed(n))
}

// Puts the case that the reply spells at the front of the row, in one pass over the reply; the other numbers stay.
pub fn numbers(reply: &[u8], count: usize, row: &mut [i32; MOST_VARIABLES])
    requires { CaseSpelled count reply.now }
    ensures { Numbered count reply.now row.old row.new }
{
    let mut p = 0;
    for value in &mut row[..count] {
        p = behind(reply, p);
        *value = value_at(reply, p);
    }
}

// Where variable i's digits start, and how many they are.
pub fn span_of(reply: &[u8], i: usize) -> Span
    requires { Based reply.now (place_behind i 0 reply.now) }
    ensures { (result.start ≡ digits_place i reply.now) × (result.size ≡ digits_size i reply.now) }
{
    let p = behind_hash(reply, i);
    Span {
        start: p + 1,
        size: base_at(reply, p).size,
    }
}
