// The words of plain texts, written into lent room: the words of kinds, and numbers in decimal.
#![tactic(auto)]

ghost use Rattle.std.specs.Prelude.{◌≡◌, ◌+◌, ◌%◌, ◌≤◌, ◌<◌, length};
ghost use Rattle.numbers.specs.Two.{dec};
ghost use Rattle.numbers.specs.Decimal.{decimal, signed};
ghost use Rattle.kinds.specs.Kinds.{row};
ghost use Rattle.room.specs.Room.{Wrote};

use kinds::Kind;

// The length of a kind's word.
pub fn word_len(kind: Kind) -> usize
    ensures { result ≡ length (row kind).plain }
{
    words::word_of(kind).len()
}

// A kind's word, from a place of the room on; the place behind it.
pub fn put_word(room: &mut [u8], at: usize, kind: Kind) -> usize
    requires { at + length (row kind).plain ≤ length room.old }
    ensures { Wrote (row kind).plain room.old room.new at result }
{
    room::put(room, at, words::word_of(kind))
}

// A number's last digit.
fn digit(n: u16) -> u8
    ensures { result ≡ 48 + n % 10 }
{
    b'0' + (n % 10) as u8
}

// How many digits a number has.
fn decimal_len(n: u16) -> usize
    ensures { result ≡ length (decimal n) }
{
    match n {
        0..=9 => 1,
        10..=99 => 2,
        100..=999 => 3,
        1000..=9999 => 4,
        _ => 5,
    }
}

// A number in decimal, from a place of the room on: so many of its last five digits.
fn put_decimal(room: &mut [u8], at: usize, n: u16) -> usize
    requires { at + length (decimal n) ≤ length room.old }
    ensures { Wrote (decimal n) room.old room.new at result }
{
    let digits = [
        digit(n / 10000),
        digit(n / 1000),
        digit(n / 100),
        digit(n / 10),
        digit(n),
    ];
    let zeros = digits.len() - decimal_len(n);
    room::put(room, at, &digits[zeros..])
}

// An integer in decimal, from a place of the room on.
pub fn put_number(room: &mut [u8], at: usize, z: i16) -> usize
    requires { at + length (signed z) ≤ length room.old }
    ensures { Wrote (signed z) room.old room.new at result }
{
    let n = z.unsigned_abs();
    if z < 0 {
        let next = room::put(room, at, b"-");
        return put_decimal(room, next, n);
    }
    put_decimal(room, at, n)
}

// How many bytes an integer has in decimal.
fn number_len(z: i16) -> usize
    ensures { result ≡ length (signed z) }
{
    let size = decimal_len(z.unsigned_abs());
    if z < 0 { size + 1 } else { size }
}

// The integer that 16 bits stand for, in decimal.
pub fn put_value(room: &mut [u8], at: usize, bits: u16) -> usize
    requires { at + length (signed (dec 16 bits)) ≤ length room.old }
    ensures { Wrote (signed (dec 16 bits)) room.old room.new at result }
{
    put_number(room, at, numbers::signed(bits))
}

// How many bytes that is.
pub fn value_len(bits: u16) -> usize
    ensures { result ≡ length (signed (dec 16 bits)) }
{
    number_len(numbers::signed(bits))
}
