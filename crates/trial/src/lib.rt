// A solver's reply, believed where its case makes the theorem false.
#![tactic(auto)]

ghost use Rattle.std.specs.Prelude.{◌≡◌, ◌≤◌, length, take, Ok};
ghost use Rattle.std.proofs.Math.Option.{none};
ghost use Rattle.refusals.specs.Said.{said_of};
ghost use Rattle.layout.specs.Limits.{block_bytes, most_variables, most_nodes};
ghost use Rattle.layout.specs.Parts.{variable_count};
ghost use Rattle.reading.specs.Cascade.{refusal_of};
ghost use Rattle.trial.specs.declared.Replied.TheVariants.{Fails};
ghost use Rattle.trial.specs.Replies.{Replies, RepliesInto};
ghost use Rattle.trial.specs.Digits.{DigitsPart, DigitsSpan};
ghost use Rattle.digits.specs.Ready.{CaseSpelled};
ghost use Rattle.trial.specs.Trying.{is_in, values_refusal, case_refusal, NumbersReady};

use digits::Span;
use layout::MOST_VARIABLES;
use numbers::{Range, VariableNumber};
use reading::accepted::{self, Accepted};
use refusals::{Cause, Refused};

// What a reply comes to: unsat is claimed, or a failing case is spelled.
#[derive(Clone, Copy, Debug, PartialEq, Eq)]
pub enum Replied {
    Unsat,
    Fails,
}

// Whether a number is in a range.
fn inside(d: Range, x: i32) -> bool
    ensures { result ≡ is_in d x }
{
    d.low <= x && x <= d.high
}

// 12: the lowest variable whose value leaves its domain.
fn values_in(sheet: &[u8], case: &[i32; MOST_VARIABLES]) -> Result<(), Refused>
    requires { (block_bytes ≤ length sheet.now) × (variable_count sheet.now ≤ most_variables) }
    ensures { said_of result ≡ values_refusal sheet.now (take (variable_count sheet.now) case.now) }
{
    let v = header::variable_count(sheet);
    for i in 0..v {
        if !inside(records::domain(sheet, VariableNumber(i as u16)), case[i]) {
            return Err(Refused {
                cause: Cause::Value,
                place: i,
            });
        }
    }
    Ok(())
}

// 12, then 13: the case doesn't fail.
fn case_fails(sheet: &Accepted, case: &[i32; MOST_VARIABLES]) -> Result<(), Refused>
    requires { NumbersReady sheet.now case.now }
    ensures { said_of result ≡ case_refusal sheet.now (take (variable_count sheet.now) case.now) }
{
    let bytes = sheet.bytes();
    values_in(bytes, case)?;
    let holds = evaluator::holds_at(bytes, case);
    if holds {
        return Err(Refused {
            cause: Cause::Holds,
            place: 0,
        });
    }
    Ok(())
}

// Tries the case that a reply spells.
fn try_case(
    sheet: &Accepted,
    reply: &[u8],
    room: &mut [i16; MOST_VARIABLES],
) -> Result<Replied, Refused>
    requires { CaseSpelled (variable_count sheet.now) reply.now }
    ensures { RepliesInto most_nodes sheet.now reply.now room.old result room.new }
{
    let bytes = sheet.bytes();
    let v = header::variable_count(bytes);
    let mut case = [0i32; MOST_VARIABLES];
    digits::numbers(reply, v, &mut case);
    case_fails(sheet, &case)?;
    cases::put(&case, v, room);
    Ok(Replied::Fails)
}

// 11: the first byte that fits no reply; else what the reply says.
fn read_reply(
    sheet: &Accepted,
    reply: &[u8],
    room: &mut [i16; MOST_VARIABLES],
) -> Result<Replied, Refused>
    ensures { RepliesInto most_nodes sheet.now reply.now room.old result room.new }
{
    let bytes = sheet.bytes();
    match replies::reach(reply, header::variable_count(bytes)) {
        Ok(()) if replies::says_sat(reply) => try_case(sheet, reply, room),
        Ok(()) => Ok(Replied::Unsat),
        Err(place) => Err(Refused {
            cause: Cause::Reply,
            place,
        }),
    }
}

// What a reply comes to, with a failing case at the front of the room.
pub fn reply_into(
    sheet: &[u8],
    reply: &[u8],
    room: &mut [i16; MOST_VARIABLES],
) -> Result<Replied, Refused>
    ensures { RepliesInto most_nodes sheet.now reply.now room.old result room.new }
{
    let sheet = accepted::accept(sheet)?;
    read_reply(&sheet, reply, room)
}

// What a reply comes to. Two calls, with a room for the case and without: document 02 has both.
pub fn reply(sheet: &[u8], reply: &[u8]) -> Result<Replied, Refused>
    ensures { Replies most_nodes sheet.now reply.now result }
{
    let mut room = [0i16; MOST_VARIABLES];
    reply_into(sheet, reply, &mut room)
}

// The span of a variable's digits in a reply that spells a failing case; both numbers 0 where the variable isn't listed.
fn listed_span(sheet: &[u8], reply: &[u8], variable: VariableNumber) -> Span
    requires { Replies most_nodes sheet.now reply.now (Ok Fails) }
    ensures { DigitsSpan most_nodes sheet.now reply.now variable.0 result.start result.size }
{
    let i = variable.0 as usize;
    if header::variable_count(sheet) <= i {
        return Span { start: 0, size: 0 };
    }
    digits::span_of(reply, i)
}

// Where a variable's digits start, and how many they are; both 0 where nothing is given, which is an empty part: no Option, since that
// is what is handed back (`Digits: DigitsSpan`).
pub fn digits_span(sheet: &[u8], reply: &[u8], variable: VariableNumber) -> Span
    ensures { DigitsSpan most_nodes sheet.now reply.now variable.0 result.start result.size }
{
    match crate::reply(sheet, reply) {
        Ok(Replied::Fails) => listed_span(sheet, reply, variable),
        Ok(Replied::Unsat) => Span { start: 0, size: 0 },
        Err(_) => Span { start: 0, size: 0 },
    }
}

// A variable's digits alone, as the very part of the reply; an empty part where nothing is given.
pub fn digits<'a>(sheet: &[u8], reply: &'a [u8], variable: VariableNumber) -> &'a [u8]
    ensures { DigitsPart most_nodes sheet.now reply.entry variable.0 result }
{
    let span = digits_span(sheet, reply, variable);
    let start = span.start;
    let end = start + span.size;
    &reply[start..end]
}
