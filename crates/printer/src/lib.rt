// The plain text of a sheet's rule, written into lent room.
#![tactic(auto)]

ghost use Rattle.std.specs.Prelude.{◌≡◌, ◌++◌, ◌+◌, ◌≤◌, ◌<◌, length};
ghost use Rattle.std.proofs.Math.Option.{none};
ghost use Rattle.lists.specs.Ascii.{ascii};
ghost use Rattle.lists.specs.First.{first};
ghost use Rattle.lists.specs.Joined.{joined_below};
ghost use Rattle.numbers.specs.Two.{dec};
ghost use Rattle.numbers.specs.Decimal.{signed};
ghost use Rattle.refusals.specs.Said.{said_of};
ghost use Rattle.layout.specs.Limits.{most_nodes};
ghost use Rattle.layout.specs.Parts.{variable_count, variable_at, rule_in};
ghost use Rattle.reading.specs.Cascade.{refusal_of};
ghost use Rattle.room.specs.Room.{Wrote};
ghost use Rattle.texts.specs.Plain.{text_of};
ghost use Rattle.texts.specs.WordKinds.{behind_word, is_none};
ghost use Rattle.printer.specs.Lines.{line_at, line_start, line_end, goal_text};
ghost use Rattle.printer.specs.Prints.{word_refusal, Prints};

use layout::MAX_OFFSET;
use numbers::VariableNumber;
use reading::accepted::{self, Accepted};
use refusals::{Cause, Refused};
use room::BLANK;

// A room of so many bytes is enough for the text of every accepted sheet.
pub const LONGEST_TEXT: usize = 23183;

// What stands before a variable's name, before the goal's words, and behind each line.
const VAR: [u8; 4] = *b"var ";

const GOAL: [u8; 4] = *b"goal";

const LINE_FEED: [u8; 1] = *b"\n";

// The bytes of a variable's line, but for its name and its two numbers.
const LINE_BYTES: usize = VAR.len() + 2 * BLANK.len() + LINE_FEED.len();

// A blank and a number by its bits, from a place of the room on.
fn spaced_value(room: &mut [u8], at: usize, bits: u16) -> usize
    requires { at + length (ascii " " ++ signed (dec 16 bits)) ≤ length room.old }
    ensures { Wrote (ascii " " ++ signed (dec 16 bits)) room.old room.new at result }
{
    let next = room::put(room, at, &BLANK);
    spelling::put_value(room, next, bits)
}

// A variable's line up to its name.
fn named_start(sheet: &Accepted, n: VariableNumber, room: &mut [u8], at: usize) -> usize
    requires { (n.0 < variable_count sheet.now) × (at + length (line_start sheet.now n.0) ≤ length room.old) }
    ensures { Wrote (line_start sheet.now n.0) room.old room.new at result }
{
    let next = room::put(room, at, &VAR);
    expressions::put_name(sheet, n, room, next)
}

// The rest of it, with both ends of the domain by their bits.
fn line_end(room: &mut [u8], at: usize, low: u16, high: u16) -> usize
    requires { at + length (line_end low high) ≤ length room.old }
    ensures { Wrote (line_end low high) room.old room.new at result }
{
    let p = spaced_value(room, at, low);
    let q = spaced_value(room, p, high);
    room::put(room, q, &LINE_FEED)
}

// A variable's line.
fn variable_line(sheet: &Accepted, n: VariableNumber, room: &mut [u8], at: usize) -> usize
    requires { (n.0 < variable_count sheet.now) × (at + length (line_at sheet.now n.0) ≤ length room.old) }
    ensures { Wrote (line_at sheet.now n.0) room.old room.new at result }
{
    let place = records::variable_place(n);
    let bytes = sheet.bytes();
    let low = numbers::u16_at(bytes, place);
    let high = numbers::u16_at(bytes, place + MAX_OFFSET);
    let next = named_start(sheet, n, room, at);
    line_end(room, next, low, high)
}

// The lines of all variables.
#[tactic(auto, using(crate::proofs::LineLaws::few_variables))]
fn variable_lines(sheet: &Accepted, room: &mut [u8]) -> usize
    requires { length (joined_below (line_at sheet.now) (variable_count sheet.now)) ≤ length room.old }
    ensures { Wrote (joined_below (line_at sheet.now) (variable_count sheet.now)) room.old room.new 0 result }
{
    let mut next = 0;
    for variable in 0..sheet.variable_count() as u16 {
        next = variable_line(sheet, VariableNumber(variable), room, next);
    }
    next
}

// The length of a variable's line.
fn line_len(sheet: &Accepted, n: VariableNumber) -> usize
    requires { n.0 < variable_count sheet.now }
    ensures { result ≡ length (line_at sheet.now n.0) }
{
    let place = records::variable_place(n);
    let bytes = sheet.bytes();
    let name = expressions::name_len(sheet, n);
    let low = spelling::value_len(numbers::u16_at(bytes, place));
    let high = spelling::value_len(numbers::u16_at(bytes, place + MAX_OFFSET));
    LINE_BYTES + name + low + high
}

// The length of the lines of all variables.
#[tactic(auto, using(crate::proofs::LineLaws::few_variables))]
fn lines_len(sheet: &Accepted) -> usize
    ensures { result ≡ length (joined_below (line_at sheet.now) (variable_count sheet.now)) }
{
    let mut size = 0;
    for variable in 0..sheet.variable_count() as u16 {
        size += line_len(sheet, VariableNumber(variable));
    }
    size
}

// The goal's line.
fn goal_line(sheet: &Accepted, room: &mut [u8], at: usize) -> usize
    requires { at + length (goal_text sheet.now) ≤ length room.old }
    ensures { Wrote (goal_text sheet.now) room.old room.new at result }
{
    let goal = sheet.goal();
    let p = room::put(room, at, &GOAL);
    let q = expressions::operand(sheet, goal, room, p);
    room::put(room, q, &LINE_FEED)
}

// The length of the text.
fn text_len(sheet: &Accepted) -> usize
    ensures { result ≡ length (text_of (rule_in sheet.now)) }
{
    let lines = lines_len(sheet);
    let words = expressions::words_len(sheet, sheet.node_count());
    lines + GOAL.len() + BLANK.len() + words
}

// Refusal 19: the lowest variable whose name is a word.
#[tactic(auto, using(crate::proofs::LineLaws::few_variables))]
fn read_names(sheet: &Accepted) -> Result<(), Refused>
    ensures said { said_of result ≡ first (word_refusal sheet.now) 0 (variable_count sheet.now) }
    ensures accepted { refusal_of most_nodes sheet.now ≡ none }
{
    let count = sheet.variable_count() as u16;
    for checked in 0..count {
        if !words::is_plain_name(sheet.name(VariableNumber(checked))) {
            return Err(Refused {
                cause: Cause::Word,
                place: checked as usize,
            });
        }
    }
    Ok(())
}

// The text of an accepted sheet, or refusal 19 or 9.
fn print_accepted(sheet: &Accepted, room: &mut [u8]) -> Result<usize, Refused>
    ensures { Prints most_nodes sheet.now room.old result room.new }
{
    read_names(sheet)?;
    let size = text_len(sheet);
    if room.len() < size {
        return Err(Refused {
            cause: Cause::Room,
            place: size,
        });
    }
    let next = variable_lines(sheet, room);
    Ok(goal_line(sheet, room, next))
}

// The text to the front of the room; a refusal leaves the room untouched.
pub fn print(sheet: &[u8], room: &mut [u8]) -> Result<usize, Refused>
    ensures { Prints most_nodes sheet.now room.old result room.new }
{
    let sheet = accepted::accept(sheet)?;
    print_accepted(&sheet, room)
}
