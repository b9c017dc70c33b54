// The pieces of a script's text, written into lent room: words, constants and symbols.
#![tactic(auto)]

ghost use Rattle.std.specs.Prelude.{◌≡◌, ◌++◌, ◌+◌, ◌≤◌, ◌<◌, length};
ghost use Rattle.lists.specs.Ascii.{ascii};
ghost use Rattle.layout.specs.Limits.{most_variables};
ghost use Rattle.wording.specs.Words.{word_of};
ghost use Rattle.wording.specs.Sixteen.{hex_digit, hex_text, symbol_text};
ghost use Rattle.room.specs.Room.{Wrote};
ghost use Rattle.pieces.specs.Sizes.{constant_bytes};

use kinds::Kind;
use numbers::VariableNumber;

// What stands around words and operands.
pub const OPEN: [u8; 1] = *b"(";

pub const CLOSE: [u8; 1] = *b")";

// The bytes of a constant.
pub const CONSTANT_BYTES: usize = 6;

// A kind's word: behind the opening parenthesis, or the whole text.
fn word_of(kind: Kind) -> &'static [u8]
    ensures { result.now ≡ word_of kind }
{
    match kind {
        Kind::Unknown | Kind::Constant | Kind::Variable => b"",
        Kind::True => b"true",
        Kind::False => b"false",
        Kind::Not => b"not",
        Kind::And => b"and",
        Kind::Or => b"or",
        Kind::Implies => b"=>",
        Kind::Iff | Kind::Equal => b"=",
        Kind::Less => b"bvslt",
        Kind::AtMost => b"bvsle",
        Kind::Minus => b"bvneg",
        Kind::Sum => b"bvadd",
        Kind::Difference => b"bvsub",
        Kind::Product => b"bvmul",
        Kind::If => b"ite",
    }
}

// The length of a kind's word.
pub fn word_len(kind: Kind) -> usize
    ensures { result ≡ length (word_of kind) }
{
    word_of(kind).len()
}

// A kind's word.
pub fn put_word(room: &mut [u8], at: usize, kind: Kind) -> usize
    requires { at + length (word_of kind) ≤ length room.old }
    ensures { Wrote (word_of kind) room.old room.new at result }
{
    room::put(room, at, word_of(kind))
}

// The opening parenthesis and a kind's word, to the front of the room.
pub fn head(room: &mut [u8], kind: Kind) -> usize
    requires { length (ascii "(" ++ word_of kind) ≤ length room.old }
    ensures { Wrote (ascii "(" ++ word_of kind) room.old room.new 0 result }
{
    let next = room::put(room, 0, &OPEN);
    put_word(room, next, kind)
}

// A hexadecimal digit.
#[tactic(auto, unfolding(wording::specs::Sixteen::hex_digit))]
fn hex_digit(d: u16) -> u8
    requires { d < 16 }
    ensures { result ≡ hex_digit d }
{
    if d < 10 {
        b'0' + d as u8
    } else {
        b'a' + (d - 10) as u8
    }
}

// A constant by its bits, to the front of the room.
#[tactic(auto, using(room::proofs::RoomLaws::wrote_as), unfolding(wording::specs::Sixteen::hex_text))]
pub fn constant(room: &mut [u8], bits: u16) -> usize
    requires { constant_bytes ≤ length room.old }
    ensures { Wrote (hex_text bits) room.old room.new 0 result }
{
    let text = [
        b'#',
        b'x',
        hex_digit(bits / 4096 % 16),
        hex_digit(bits / 256 % 16),
        hex_digit(bits / 16 % 16),
        hex_digit(bits % 16),
    ];
    room::put(room, 0, &text)
}

// The same, from a place of the room on.
pub fn constant_from(room: &mut [u8], at: usize, bits: u16) -> usize
    requires { at + constant_bytes ≤ length room.old }
    ensures { Wrote (hex_text bits) room.old room.new at result }
{
    at + constant(&mut room[at..], bits)
}

// A variable's symbol.
#[tactic(auto, unfolding(wording::specs::Sixteen::symbol_text))]
pub fn symbol(room: &mut [u8], at: usize, n: VariableNumber) -> usize
    requires { (n.0 < most_variables) × (at + length (symbol_text n.0) ≤ length room.old) }
    ensures { Wrote (symbol_text n.0) room.old room.new at result }
{
    let i = n.0;
    if i < 10 {
        let text = [b'v', b'0' + i as u8];
        room::put(room, at, &text)
    } else {
        let text = [b'v', b'0' + (i / 10 % 10) as u8, b'0' + (i % 10) as u8];
        room::put(room, at, &text)
    }
}

// The length of a variable's symbol.
#[tactic(auto, unfolding(wording::specs::Sixteen::symbol_text))]
pub fn symbol_len(n: VariableNumber) -> usize
    ensures { result ≡ length (symbol_text n.0) }
{
    if n.0 < 10 { 2 } else { 3 }
}
