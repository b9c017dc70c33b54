// The script of a sheet's rule, written into lent room.
#![tactic(auto)]

ghost use Rattle.std.specs.Prelude.{◌≡◌, ◌+◌, ◌≤◌, length};
ghost use Rattle.std.proofs.Math.Option.{none};
ghost use Rattle.layout.specs.Limits.{most_variables, most_nodes};
ghost use Rattle.layout.specs.Parts.{rule_in};
ghost use Rattle.reading.specs.Cascade.{refusal_of};
ghost use Rattle.wording.specs.Form.{form_of};
ghost use Rattle.wording.specs.Script.{only_with, script};
ghost use Rattle.lines.specs.Lines.{values_line};
ghost use Rattle.room.specs.Room.{Wrote};
ghost use Rattle.writer.specs.Frame.{produce_models, opening_lines, goal_lines, ending_lines, models_bytes};
ghost use Rattle.writer.specs.Writes.{Writes};

use reading::accepted::Accepted;
use refusals::{Cause, Refused};
use room::BLANK;
use wording::ScriptForm;

// A room of so many bytes is enough for both scripts of every accepted sheet.
pub const ENOUGH_ROOM: usize = 20480;

// The first lines, what stands before and behind the goal's text, and the last line.
const PRODUCE_MODELS: [u8; 34] = *b"(set-option :produce-models true)\n";

const SET_LOGIC: [u8; 20] = *b"(set-logic QF_UFBV)\n";

const GOAL_START: [u8; 12] = *b"(assert (not";

const GOAL_END: [u8; 15] = *b"))\n(check-sat)\n";

const EXIT: [u8; 7] = *b"(exit)\n";

// The bytes of the script besides the lines of variables, the goal's text and what only a script with models has.
const FRAME_BYTES: usize = SET_LOGIC.len()
    + GOAL_START.len()
    + BLANK.len()
    + GOAL_END.len()
    + EXIT.len();

// The first line of a script with models, to the front of the room.
fn models_line(form: ScriptForm, room: &mut [u8]) -> usize
    requires { length (only_with form.models produce_models) ≤ length room.old }
    ensures { Wrote (only_with form.models produce_models) room.old room.new 0 result }
{
    if form.models {
        room::put(room, 0, &PRODUCE_MODELS)
    } else {
        0
    }
}

// The lines before the ranges, to the front of the room.
fn opening(form: ScriptForm, room: &mut [u8], count: usize) -> usize
    requires { (count ≤ most_variables) × (length (opening_lines form.models count) ≤ length room.old) }
    ensures { Wrote (opening_lines form.models count) room.old room.new 0 result }
{
    let p = models_line(form, room);
    let q = room::put(room, p, &SET_LOGIC);
    lines::declarations(room, q, count)
}

// The line of the negated goal, and the command behind it.
fn goal_lines(sheet: &Accepted, room: &mut [u8], at: usize) -> usize
    requires { at + length (goal_lines sheet.now) ≤ length room.old }
    ensures { Wrote (goal_lines sheet.now) room.old room.new at result }
{
    let goal = sheet.goal();
    let p = room::put(room, at, &GOAL_START);
    let q = terms::operand(sheet, goal, room, p);
    room::put(room, q, &GOAL_END)
}

// The line of a script with models that asks for values.
fn asked_values(form: ScriptForm, room: &mut [u8], at: usize, count: usize) -> usize
    requires { (count ≤ most_variables) × (at + length (only_with form.models (values_line count)) ≤ length room.old) }
    ensures { Wrote (only_with form.models (values_line count)) room.old room.new at result }
{
    if form.models {
        lines::values_line(room, at, count)
    } else {
        at
    }
}

// The lines behind those of the goal.
fn ending(form: ScriptForm, room: &mut [u8], at: usize, count: usize) -> usize
    requires { (count ≤ most_variables) × (at + length (ending_lines form.models count) ≤ length room.old) }
    ensures { Wrote (ending_lines form.models count) room.old room.new at result }
{
    let next = asked_values(form, room, at, count);
    room::put(room, next, &EXIT)
}

// The script, to the front of the room; its bytes.
fn put_script(sheet: &Accepted, form: ScriptForm, room: &mut [u8]) -> usize
    requires { length (script (form_of form) (rule_in sheet.now)) ≤ length room.old }
    ensures { Wrote (script (form_of form) (rule_in sheet.now)) room.old room.new 0 result }
{
    let bytes = sheet.bytes();
    let count = sheet.variable_count();
    let p = opening(form, room, count);
    let q = lines::range_lines(bytes, room, p, count);
    let r = goal_lines(sheet, room, q);
    ending(form, room, r, count)
}

// The bytes that only a script with models has.
fn models_len(form: ScriptForm, count: usize) -> usize
    requires { count ≤ most_variables }
    ensures { result ≡ models_bytes form.models count }
{
    if form.models {
        PRODUCE_MODELS.len() + lines::values_len(count)
    } else {
        0
    }
}

// The length of the script.
fn script_len(sheet: &Accepted, form: ScriptForm) -> usize
    ensures size { result ≡ length (script (form_of form) (rule_in sheet.now)) }
    ensures accepted { refusal_of most_nodes sheet.now ≡ none }
{
    let count = sheet.variable_count();
    let goal = terms::term_len(sheet, sheet.goal());
    lines::variables_len(count) + goal + FRAME_BYTES + models_len(form, count)
}

// The script of an accepted sheet, or refusal 9 at the bytes that it needs.
fn write_accepted(sheet: &Accepted, form: ScriptForm, room: &mut [u8]) -> Result<usize, Refused>
    ensures { Writes most_nodes (form_of form) sheet.now room.old result room.new }
{
    let size = script_len(sheet, form);
    if room.len() < size {
        return Err(Refused {
            cause: Cause::Room,
            place: size,
        });
    }
    Ok(put_script(sheet, form, room))
}

// The script to the front of the room; a refusal leaves the room untouched.
pub fn write_script(sheet: &[u8], form: ScriptForm, room: &mut [u8]) -> Result<usize, Refused>
    ensures { Writes most_nodes (form_of form) sheet.now room.old result room.new }
{
    let sheet = reading::accepted::accept(sheet)?;
    write_accepted(&sheet, form, room)
}
