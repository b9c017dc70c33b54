// The sheet of a plain text, made in lent room.
#![tactic(auto)]

ghost use Rattle.std.specs.Prelude.{◌≡◌, true, ◌+◌, ◌≤◌, ◌<◌, length, replicate};
ghost use Rattle.layout.specs.Limits.{most_variables, most_nodes, sheet_bytes, most_sheet_bytes};
ghost use Rattle.texts.specs.Texts.{Text};
ghost use Rattle.sheets.specs.Laying.{with_variable};
ghost use Rattle.room.specs.Written.{Fills};
ghost use Rattle.maker.specs.Makes.{Makes};
ghost use Rattle.maker.specs.Lays.{between, variable_between, BetweenReady, LineReady, LinePut, LinesReady, LinesPut, Counts, SheetReady, sheet_refusal, Lays};

use layout::{BLOCK_BYTES, MOST_NODES, MOST_SHEET_BYTES, MOST_VARIABLES};
use numbers::VariableNumber;
use reading::accepted::{self, Accepted};
use refusals::{Cause, Refused};
use words::whole::Whole;
use words::{GOAL_START, NAME_START};

// A variable's record, from its name up to the first end, and the numbers up to the next two.
fn put_between(text: &[u8], at: usize, p: usize, q: usize, r: usize, sheet: &mut [u8], i: usize)
    requires { BetweenReady text.now at p q r i (length sheet.old) }
    ensures { sheet.new ≡ with_variable i (variable_between text.now at p q r) sheet.old }
{
    let low = words::number_of(&text[p + 1..q]);
    let high = words::number_of(&text[q + 1..r]);
    sheets::put_variable(sheet, VariableNumber(i as u16), &text[at..p], low, high)
}

// The record of the variable whose line stands there; the place behind the line.
fn put_line(text: &[u8], at: usize, sheet: &mut [u8], i: usize) -> usize
    requires { LineReady text.now at i (length sheet.old) }
    ensures { LinePut text.now at i sheet.old result sheet.new }
{
    let name = at + NAME_START;
    let p = words::word_end(text, name);
    let q = words::word_end(text, p + 1);
    let r = words::word_end(text, q + 1);
    put_between(text, name, p, q, r, sheet, i);
    r + 1
}

// The records of so many variables; the place behind their lines.
fn put_variables(text: &[u8], count: usize, sheet: &mut [u8]) -> usize
    requires { LinesReady text.now count (length sheet.old) }
    ensures { LinesPut text.now count sheet.old result sheet.new }
{
    let mut at = 0;
    for i in 0..count {
        at = put_line(text, at, sheet, i);
    }
    at
}

// The whole sheet, in a room of zeros.
fn lay(text: &[u8], variables: usize, nodes: usize, sheet: &mut [u8])
    requires { SheetReady text.now variables nodes (length sheet.old) }
    ensures { Lays text.now sheet.old sheet.new }
{
    sheets::put_counts(sheet, nodes, variables);
    let goal = put_variables(text, variables, sheet);
    building::build(text, variables, goal + GOAL_START, sheet, 0);
    sheets::put_checks(sheet, sheet.len() / BLOCK_BYTES);
}

// An accepted sheet to the front of the room, or refusal 9 at its bytes.
fn deliver_accepted(sheet: &Accepted, room: &mut [u8]) -> Result<usize, Refused>
    ensures { Fills (sheet_refusal most_nodes sheet.now (length room.old)) sheet.now room.old result room.new }
{
    let bytes = sheet.bytes();
    if room.len() < bytes.len() {
        return Err(Refused {
            cause: Cause::Room,
            place: bytes.len(),
        });
    }
    Ok(room::put(room, 0, bytes))
}

// A sheet to the front of the room, or its refusal, or 9.
fn deliver(sheet: &[u8], room: &mut [u8]) -> Result<usize, Refused>
    ensures { Fills (sheet_refusal most_nodes sheet.now (length room.old)) sheet.now room.old result room.new }
{
    let sheet = accepted::accept(sheet)?;
    deliver_accepted(&sheet, room)
}

// The sheet of a text, laid in a room of zeros, to the front of the other room.
fn make_in(
    text: &[u8],
    variables: usize,
    nodes: usize,
    sheet: &mut [u8],
    room: &mut [u8],
) -> Result<usize, Refused>
    requires { SheetReady text.now variables nodes (length sheet.old) × (sheet.old ≡ replicate (length sheet.old) 0) }
    ensures { Makes most_nodes text.now room.old result room.new }
{
    lay(text, variables, nodes, sheet);
    deliver(sheet, room)
}

// The bytes of a sheet of so many nodes.
fn sheet_size(nodes: usize) -> usize
    requires { nodes ≤ most_nodes }
    ensures { (result ≡ sheet_bytes nodes) × (result ≤ most_sheet_bytes) }
{
    header::sheet_bytes(nodes)
}

// The sheet of a text within the limits.
fn make_sheet(
    text: &[u8],
    variables: usize,
    nodes: usize,
    room: &mut [u8],
) -> Result<usize, Refused>
    requires { Counts text.now variables nodes × (variables ≤ most_variables) × (nodes ≤ most_nodes) }
    ensures { Makes most_nodes text.now room.old result room.new }
{
    let size = sheet_size(nodes);
    let mut sheet = [0u8; MOST_SHEET_BYTES];
    make_in(text, variables, nodes, &mut sheet[..size], room)
}

// The sheet of a text, or refusal 4 where a sheet can't have so much.
fn make_whole(text: &Whole, room: &mut [u8]) -> Result<usize, Refused>
    ensures { Makes most_nodes text.now room.old result room.new }
{
    let variables = text.variable_count();
    let nodes = text.node_count();
    if MOST_VARIABLES < variables || MOST_NODES < nodes {
        return Err(Refused {
            cause: Cause::Counts,
            place: 0,
        });
    }
    make_sheet(text.bytes(), variables, nodes, room)
}

// The sheet to the front of the room; a refusal leaves the room untouched.
pub fn make(text: &[u8], room: &mut [u8]) -> Result<usize, Refused>
    ensures { Makes most_nodes text.now room.old result room.new }
{
    match scan::scan(text) {
        Ok(()) => make_whole(&Whole::new(text), room),
        Err(place) => Err(Refused {
            cause: Cause::Text,
            place,
        }),
    }
}
