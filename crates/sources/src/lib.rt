// What the program says of a text: its sheet, or the line of its refusal and where that points. And of a sheet: its text.
#![tactic(auto)]

ghost use Rattle.std.specs.Prelude.{◌≤◌, length, IfOk, IfErr};
ghost use Rattle.std.proofs.Math.Option.{some};
ghost use Rattle.layout.specs.Limits.{most_nodes};
ghost use Rattle.io.specs.Counts.{IsPrefixLen};
ghost use Rattle.refusals.specs.Causes.{refusal_of};
ghost use Rattle.room.specs.Room.{Wrote};
ghost use Rattle.pointing.specs.Pointed.{pointed_said};
ghost use Rattle.printer.specs.Prints.{longest_text};
ghost use Rattle.sources.specs.Sources.{pointed_line, longest_pointed, WrotePointed, Sourced};
ghost use Rattle.sources.specs.Refusing.{Refuses, PointsInside};
ghost use Rattle.sources.specs.Texts.{text_answer};

use refusals::{Cause, Refusal, Refused};
use words::whole::Whole;

// A room of so many bytes is enough for the line of every refusal of a text.
pub const LONGEST_LINE: usize = 111;

// Where a refusal of the text points.
fn place_of(text: &[u8], refused: Refused) -> Option<usize>
    requires { Refuses text.now (refusal_of refused) }
    ensures { PointsInside text.now (refusal_of refused) (pointed_said result) }
{
    match refused.cause {
        Cause::Text => Some(refused.place),
        _ => pointing::point(&Whole::new(text), refused.into()),
    }
}

// The line of a refusal that points at a place.
fn placed_line(text: &[u8], refusal: Refusal, place: usize, line: &mut [u8]) -> usize
    requires { (place ≤ length text.now) × (longest_pointed ≤ length line.old) }
    ensures { Wrote (pointed_line text.now refusal (some place)) line.old line.new 0 result }
{
    let row = pointing::line_of(text, place) as u64;
    let column = pointing::column_of(text, place) as u64;
    let number = refusal.number as u64;
    let told = phrases::put_numbers(line, 0, b"refused ", number, b" at ", refusal.place as u64);
    let next = phrases::put_numbers(line, told, b" (line ", row, b" column ", column);
    room::put(line, next, b")\n")
}

// The line of a refusal, at the front of the room.
fn refused_line(text: &[u8], refused: Refused, line: &mut [u8]) -> usize
    requires { Refuses text.now (refusal_of refused) × (longest_pointed ≤ length line.old) }
    ensures { WrotePointed text.now (refusal_of refused) line.old line.new result }
{
    match place_of(text, refused) {
        None => phrases::refused_line(line, refused.into()),
        Some(place) => placed_line(text, refused.into(), place, line),
    }
}

// The bytes of a text's sheet, at the front of its room; where it is refused, those of the refusal's line, at the front of the other.
pub fn sheet_of(text: &[u8], sheet: &mut [u8], line: &mut [u8]) -> Result<usize, usize>
    requires { longest_pointed ≤ length line.old }
    ensures sourced { Sourced most_nodes text.now sheet.old line.old result sheet.new line.new }
    ensures sheet_prefix { IfOk result (λ n. IsPrefixLen n sheet.new) }
    ensures line_prefix { IfErr result (λ n. IsPrefixLen n line.new) }
{
    // No `map_err`: its closure would hold the line's room, and the contract learns what that leaves there only through the closure.
    match maker::make(text, sheet) {
        Ok(size) => Ok(size),
        Err(refused) => Err(refused_line(text, refused, line)),
    }
}

// The text of a sheet, or the refusal's line, at the front of the room; no text is longer than the room.
pub fn text_answer(sheet: &[u8], room: &mut [u8]) -> usize
    requires { longest_text ≤ length room.old }
    ensures wrote { Wrote (text_answer most_nodes sheet.now) room.old room.new 0 result }
    ensures prefix_len { IsPrefixLen result room.new }
{
    match printer::print(sheet, room) {
        Ok(size) => size,
        Err(refused) => phrases::refused_line(room, refused.into()),
    }
}
