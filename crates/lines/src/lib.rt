// The lines of a script that are about variables, written into lent room: declarations, ranges and values asked for.
// How many variables there are is a number with a clause: in a type it would be unwrapped at each use and for each loop.
#![tactic(auto)]

ghost use Rattle.std.specs.Prelude.{◌≡◌, ◌+◌, ◌≤◌, ◌<◌, length};
ghost use Rattle.lists.specs.Joined.{joined_below};
ghost use Rattle.layout.specs.Limits.{block_bytes, most_variables};
ghost use Rattle.wording.specs.Sixteen.{symbol_text};
ghost use Rattle.room.specs.Room.{Wrote};
ghost use Rattle.pieces.specs.Sizes.{longest_symbol};
ghost use Rattle.lines.specs.Lines.{declaration_line, range_start, range_end, range_line, spaced, further_symbol, values_line, declaration_bytes, start_bytes, end_bytes, range_bytes, lines_bytes, spaced_bytes, LinesSize};

use numbers::VariableNumber;
use pieces::CONSTANT_BYTES;
use room::BLANK;

// The texts that stand around symbols and constants.
const DECLARE: [u8; 13] = *b"(declare-fun ";

const SORTED: [u8; 19] = *b" () (_ BitVec 16))\n";

const LOWEST: [u8; 20] = *b"(assert (and (bvsle ";

const HIGHEST: [u8; 9] = *b") (bvsle ";

const CLOSED: [u8; 4] = *b")))\n";

const GET_VALUE: [u8; 12] = *b"(get-value (";

const VALUES_END: [u8; 3] = *b"))\n";

// The bytes of a variable's two lines, but for its symbol, which stands three times in them.
const PLAIN_BYTES: usize = DECLARE.len()
    + SORTED.len()
    + LOWEST.len()
    + HIGHEST.len()
    + 2 * BLANK.len()
    + 2 * CONSTANT_BYTES
    + CLOSED.len();

// The bytes of the line that asks for values, but for the symbols and the blanks between them.
const VALUES_BYTES: usize = GET_VALUE.len() + VALUES_END.len();

// A variable's declaration line.
fn declaration(room: &mut [u8], at: usize, n: VariableNumber) -> usize
    requires { (n.0 < most_variables) × (at + declaration_bytes (length (symbol_text n.0)) ≤ length room.old) }
    ensures { Wrote (declaration_line n.0) room.old room.new at result }
{
    let p = room::put(room, at, &DECLARE);
    let q = pieces::symbol(room, p, n);
    room::put(room, q, &SORTED)
}

// The declaration lines of the first variables.
pub fn declarations(room: &mut [u8], at: usize, count: usize) -> usize
    requires { (count ≤ most_variables) × (at + length (joined_below declaration_line count) ≤ length room.old) }
    ensures { Wrote (joined_below declaration_line count) room.old room.new at result }
{
    let mut next = at;
    for i in 0..count as u16 {
        next = declaration(room, next, VariableNumber(i));
    }
    next
}

// A blank, and a variable's symbol.
fn spaced_symbol(room: &mut [u8], at: usize, n: VariableNumber) -> usize
    requires { (n.0 < most_variables) × (at + spaced_bytes (length (symbol_text n.0)) ≤ length room.old) }
    ensures { Wrote (spaced n.0) room.old room.new at result }
{
    let next = room::put(room, at, &BLANK);
    pieces::symbol(room, next, n)
}

// A range line up to its first symbol, with the lower end by its bits.
fn range_start(room: &mut [u8], at: usize, n: VariableNumber, low: u16) -> usize
    requires { (n.0 < most_variables) × (at + start_bytes (length (symbol_text n.0)) ≤ length room.old) }
    ensures { Wrote (range_start low n.0) room.old room.new at result }
{
    let p = room::put(room, at, &LOWEST);
    let q = pieces::constant_from(room, p, low);
    spaced_symbol(room, q, n)
}

// The rest of a range line, with the upper end by its bits.
fn range_end(room: &mut [u8], at: usize, n: VariableNumber, high: u16) -> usize
    requires { (n.0 < most_variables) × (at + end_bytes (length (symbol_text n.0)) ≤ length room.old) }
    ensures { Wrote (range_end n.0 high) room.old room.new at result }
{
    let p = room::put(room, at, &HIGHEST);
    let q = pieces::symbol(room, p, n);
    let r = room::put(room, q, &BLANK);
    let s = pieces::constant_from(room, r, high);
    room::put(room, s, &CLOSED)
}

// A variable's range line.
fn range_line(sheet: &[u8], room: &mut [u8], at: usize, n: VariableNumber) -> usize
    requires { (block_bytes ≤ length sheet.now) × (n.0 < most_variables) × (at + range_bytes (length (symbol_text n.0)) ≤ length room.old) }
    ensures { Wrote (range_line sheet.now n.0) room.old room.new at result }
{
    let place = records::variable_place(n);
    let low = numbers::u16_at(sheet, place);
    let high = numbers::u16_at(sheet, place + 2);
    let next = range_start(room, at, n, low);
    range_end(room, next, n, high)
}

// The range lines of the first variables.
pub fn range_lines(sheet: &[u8], room: &mut [u8], at: usize, count: usize) -> usize
    requires { (block_bytes ≤ length sheet.now) × (count ≤ most_variables) × (at + length (joined_below (range_line sheet.now) count) ≤ length room.old) }
    ensures { Wrote (joined_below (range_line sheet.now) count) room.old room.new at result }
{
    let mut next = at;
    for variable in 0..count as u16 {
        next = range_line(sheet, room, next, VariableNumber(variable));
    }
    next
}

// The symbols of so many variables behind the first, a blank before each.
fn further_symbols(room: &mut [u8], at: usize, others: usize) -> usize
    requires { (others < most_variables) × (at + length (joined_below further_symbol others) ≤ length room.old) }
    ensures { Wrote (joined_below further_symbol others) room.old room.new at result }
{
    let mut next = at;
    for i in 0..others as u16 {
        next = spaced_symbol(room, next, VariableNumber(i + 1));
    }
    next
}

// The line that asks for the values of the first variables; none where there are none.
pub fn values_line(room: &mut [u8], at: usize, count: usize) -> usize
    requires { (count ≤ most_variables) × (at + length (values_line count) ≤ length room.old) }
    ensures { Wrote (values_line count) room.old room.new at result }
{
    if count == 0 {
        return at;
    }
    let p = room::put(room, at, &GET_VALUE);
    let q = pieces::symbol(room, p, VariableNumber(0));
    let r = further_symbols(room, q, count - 1);
    room::put(room, r, &VALUES_END)
}

// The length of both lines of a variable.
fn lines_len(n: VariableNumber) -> usize
    ensures { result ≡ lines_bytes (length (symbol_text n.0)) × (result ≤ lines_bytes longest_symbol) }
{
    PLAIN_BYTES + 3 * pieces::symbol_len(n)
}

// The length of both lines of the first variables.
pub fn variables_len(count: usize) -> usize
    requires { count ≤ most_variables }
    ensures { LinesSize count result }
{
    let mut size = 0;
    for i in 0..count as u16 {
        size += lines_len(VariableNumber(i));
    }
    size
}

// The length of the symbols of so many variables behind the first, a blank before each.
fn further_len(others: usize) -> usize
    requires { others < most_variables }
    ensures { result ≡ length (joined_below further_symbol others) }
{
    let mut size = 0;
    for i in 0..others as u16 {
        size += BLANK.len() + pieces::symbol_len(VariableNumber(i + 1));
    }
    size
}

// The length of the line that asks for values.
pub fn values_len(count: usize) -> usize
    requires { count ≤ most_variables }
    ensures { result ≡ length (values_line count) }
{
    if count == 0 {
        return 0;
    }
    let first = pieces::symbol_len(VariableNumber(0));
    VALUES_BYTES + first + further_len(count - 1)
}
