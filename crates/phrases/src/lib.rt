// The phrases of an answer, written into lent room: numbers in decimal, a refusal, a failing case.
#![tactic(auto)]

ghost use Rattle.std.specs.Prelude.{◌≡◌, ◌+◌, ◌*◌, ◌≤◌, length};
ghost use Rattle.layout.specs.Limits.{most_name_bytes, most_variables};
ghost use Rattle.layout.specs.Parts.{variable_count};
ghost use Rattle.room.specs.Room.{Wrote};
ghost use Rattle.numbers.specs.Decimal.{decimal};
ghost use Rattle.phrases.specs.Phrases.{numbers_text, numbers_line, refusal_line, name_value};
ghost use Rattle.phrases.specs.Sizes.{longest_pair, longest_numbers, longest_refusal, longest_name_value, longest_fails};
ghost use Rattle.phrases.specs.Pieces.{Settled, name_values_at, fails_line};

use layout::MOST_VARIABLES;
use numbers::VariableNumber;
use refusals::Refusal;

// A number in decimal, from a place of the room on; the place behind it. No Display: the bytes that are left in the lent room are promised.
fn put_decimal(room: &mut [u8], at: usize, n: u64) -> usize
    requires { at + length (decimal n) ≤ length room.old }
    ensures { Wrote (decimal n) room.old room.new at result }
{
    let mut text = [0u8; 20];
    let size = io::decimal(n, &mut text);
    room::put(room, at, &text[..size])
}

// Two numbers, each behind its word.
pub fn put_numbers(room: &mut [u8], at: usize, first: &[u8], m: u64, second: &[u8], n: u64) -> usize
    requires { at + longest_pair (length first.now) (length second.now) ≤ length room.old }
    ensures { Wrote (numbers_text first.now m second.now n) room.old room.new at result × (result ≤ at + longest_pair (length first.now) (length second.now)) }
{
    let p = room::put(room, at, first);
    let q = put_decimal(room, p, m);
    let r = room::put(room, q, second);
    put_decimal(room, r, n)
}

// A line of two numbers, each behind its word, to the front of the room.
pub fn numbers_line(room: &mut [u8], first: &[u8], m: u64, second: &[u8], n: u64) -> usize
    requires { longest_numbers (length first.now) (length second.now) ≤ length room.old }
    ensures { Wrote (numbers_line first.now m second.now n) room.old room.new 0 result }
{
    let next = put_numbers(room, 0, first, m, second, n);
    room::put(room, next, b"\n")
}

// The line of a refusal, to the front of the room.
pub fn refused_line(room: &mut [u8], refusal: Refusal) -> usize
    requires { longest_refusal ≤ length room.old }
    ensures { Wrote (refusal_line refusal) room.old room.new 0 result }
{
    numbers_line(
        room,
        b"refused ",
        refusal.number as u64,
        b" at ",
        refusal.place as u64,
    )
}

// A name and a value.
fn put_name_value(name: &[u8], z: i16, room: &mut [u8], at: usize) -> usize
    requires { (length name.now ≤ most_name_bytes) × (at + longest_name_value ≤ length room.old) }
    ensures { Wrote (name_value name.now z) room.old room.new at result × (result ≤ at + longest_name_value) }
{
    let p = room::put(room, at, b" ");
    let q = room::put(room, p, name);
    let r = room::put(room, q, b"=");
    spelling::put_number(room, r, z)
}

// The names of the first variables, each with its value in a row.
#[tactic(auto, using(crate::proofs::NameValueLaws::few))]
fn put_name_values(
    sheet: &[u8],
    row: &[i16; MOST_VARIABLES],
    count: usize,
    room: &mut [u8],
    at: usize,
) -> usize
    requires { Settled sheet.now row.now × (count ≤ variable_count sheet.now) × (at + longest_name_value * most_variables ≤ length room.old) }
    ensures { Wrote (name_values_at sheet.now row.now count) room.old room.new at result × (result ≤ at + longest_name_value * most_variables) }
{
    let mut next = at;
    for (i, z) in row[..count].iter().enumerate() {
        let name = records::name_in(sheet, records::variable_place(VariableNumber(i as u16)));
        next = put_name_value(name, *z, room, next);
    }
    next
}

// The line of a check that fails with the row's values.
// The sheet is bytes, and that they are accepted a clause: the callers have it so, and an `Accepted` would be made of just that.
pub fn fails_line(sheet: &[u8], row: &[i16; MOST_VARIABLES], room: &mut [u8]) -> usize
    requires { Settled sheet.now row.now × (longest_fails ≤ length room.old) }
    ensures { Wrote (fails_line sheet.now row.now) room.old room.new 0 result }
{
    let count = header::variable_count(sheet);
    let p = room::put(room, 0, b"fails");
    let q = put_name_values(sheet, row, count, room, p);
    room::put(room, q, b"\n")
}
