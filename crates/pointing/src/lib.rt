// Where a refusal of a text points: the byte, and its line and column.
#![tactic(auto)]

ghost use Rattle.std.specs.Prelude.{◌≡◌, ◌+◌, ◌≤◌, ◌<◌, length, drop};
ghost use Rattle.grammar.specs.Words.{word_length};
ghost use Rattle.texts.specs.Expressions.{Draft};
ghost use Rattle.texts.specs.Texts.{Says};
ghost use Rattle.texts.specs.Places.{separates, first_word};
ghost use Rattle.pointing.specs.Pointing.{name_places, word_places, goal_place, nth, pointed_at, line_of, column_of};
ghost use Rattle.pointing.specs.Pointed.{pointed_said};
ghost use Rattle.pointing.specs.Standing.{operand_count, Begun, Spans, Reaches, Finds};
ghost use Rattle.pointing.specs.Lines.{LineBegun, PassesLine, LinesReach, LineAt};

use refusals::{Cause, Refusal};
use words::whole::Whole;
use words::{GOAL_START, NAME_START};

// The place behind an expression and its separator, and how many nodes it has.
#[derive(Clone, Copy)]
struct Extent {
    behind: usize,
    nodes: usize,
}

// Behind the word that begins at a place, and its separator.
fn behind(text: &[u8], at: usize) -> usize
    requires { at + word_length separates (drop at text.now) < length text.now }
    ensures { result ≡ at + word_length separates (drop at text.now) + 1 }
{
    words::word_end(text, at) + 1
}

// ---- lines

// The line behind a variable's line.
fn next_line(text: &[u8], line: usize) -> usize
    requires { LineBegun text.now line }
    ensures { PassesLine text.now line result }
{
    let name = behind(text, line);
    let least = behind(text, name);
    let most = behind(text, least);
    behind(text, most)
}

// Where line i starts.
fn line_start(text: &[u8], i: usize) -> usize
    requires { LinesReach text.now i }
    ensures { (d : Draft) → Says text.now d → i ≤ length d.variables → LineAt d text.now i result }
{
    let mut line = 0;
    for _ in 0..i {
        line = next_line(text, line);
    }
    line
}

// Where the name of variable i stands.
fn name_pointed(text: &Whole, i: usize) -> Option<usize>
    ensures { (d : Draft) → Says text.now d → pointed_said result ≡ nth (name_places d.variables 0) i }
{
    if i < text.variable_count() {
        Some(line_start(text.bytes(), i) + NAME_START)
    } else {
        None
    }
}

// ---- nodes

// How many operands stand behind the word that begins at a place; none where it is no kind's.
fn operands_at(text: &[u8], at: usize) -> usize
    requires { at ≤ length text.now }
    ensures { result ≡ operand_count (first_word (drop at text.now)) }
{
    let end = words::word_end(text, at);
    words::operands_behind(words::kind_named(&text[at..end])).unwrap_or(0)
}

// The extent of the expression that stands at a place: its words, until no operand is to come.
fn extent_at(text: &[u8], at: usize) -> Extent
    requires { Begun text.now at }
    ensures { Spans text.now at result.behind result.nodes }
{
    let mut k = at;
    let mut pending = 1;
    let mut nodes = 0;
    while 0 < pending {
        pending = pending - 1 + operands_at(text, k);
        k = behind(text, k);
        nodes += 1;
    }
    Extent { behind: k, nodes }
}

// The word of node n of the expression that stands at a place: down into the expression whose nodes n is among, past those before it.
fn word_of(text: &[u8], start: usize, n: usize) -> usize
    requires { Reaches text.now start n }
    ensures { Finds text.now start n result }
{
    let mut at = start;
    let mut first = 0;
    loop {
        let here = extent_at(text, at);
        let next = first + here.nodes;
        if next == n + 1 {
            return at;
        }
        if n < next {
            at = behind(text, at);
        } else {
            (at, first) = (here.behind, next);
        }
    }
}

// Where the goal's expression stands.
fn goal_start(text: &Whole) -> usize
    ensures { (d : Draft) → Says text.now d → result ≡ goal_place d.variables }
{
    line_start(text.bytes(), text.variable_count()) + GOAL_START
}

// Where the word of node n stands.
fn word_pointed(text: &Whole, n: usize) -> Option<usize>
    ensures { (d : Draft) → Says text.now d → pointed_said result ≡ nth (word_places d.variables d.goal (goal_place d.variables)) n }
{
    if n < text.node_count() {
        Some(word_of(text.bytes(), goal_start(text), n))
    } else {
        None
    }
}

// ---- a refusal, and a place

// Where a refusal of what a text says points.
pub fn point(text: &Whole, refusal: Refusal) -> Option<usize>
    ensures { (d : Draft) → Says text.now d → pointed_said result ≡ pointed_at d refusal }
{
    match Cause::try_from(refusal.number).ok()? {
        Cause::Variable => name_pointed(text, refusal.place),
        Cause::Sort | Cause::Range => word_pointed(text, refusal.place),
        _ => None,
    }
}

// The line in which a place stands.
#[tactic(auto, using(crate::proofs::ColumnLaws::line_few))]
pub fn line_of(text: &[u8], place: usize) -> usize
    requires { place ≤ length text.now }
    ensures { result ≡ line_of text.now place }
{
    words::occurrences(&text[..place], b'\n') + 1
}

// The column: behind a line feed it is 1 again.
pub fn column_of(text: &[u8], place: usize) -> usize
    requires { place ≤ length text.now }
    ensures { result ≡ column_of text.now place }
{
    text[..place]
        .iter()
        .rev()
        .take_while(|c| **c != b'\n')
        .count()
        + 1
}
