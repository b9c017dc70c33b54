// How far bytes begin a plain text: word by word, with a count of pending operands.
#![tactic(auto)]

ghost use Rattle.std.specs.Prelude.{◌≡◌, ◌||◌, ◌+◌, ◌*◌, ◌≤◌, ◌<◌, length};
ghost use Rattle.lists.specs.Ascii.{ascii};
ghost use Rattle.texts.specs.WordKinds.{worded};
ghost use Rattle.texts.specs.Places.{operands_of, names_in, beginning, begins_any, plain_words, begins_number, begins_name, begins, reach};
ghost use Rattle.words.specs.Operands.{behind_said};
ghost use Rattle.scan.specs.Scanned.{ScanSays};
ghost use Rattle.scan.specs.States.{place_at, word_at, Stands, to, from_line, from_name, from_number, from_operand, onward_at, Steps, stop_of, stop_at};

use layout::MOST_NAME_BYTES;
use words::WORDED;

// What the next word is: a line's first, a variable's name, its least or its greatest number, or a word of the goal. Behind the goal there is none.
#[derive(Clone, Copy)]
enum Phase {
    Line,
    Named,
    Least,
    Most,
    Operand,
    Done,
}

// Where the scan stands: how many operands come behind the next one, how many names are declared, and where the next word starts.
#[derive(Clone, Copy)]
struct Here {
    phase: Phase,
    pending: usize,
    declared: usize,
    start: usize,
}

// Where a word leads: the separator that must stand behind it, and what comes then.
#[derive(Clone, Copy)]
struct Onward {
    separator: u8,
    phase: Phase,
    pending: usize,
    declared: usize,
}

fn to(separator: u8, phase: Phase, pending: usize, declared: usize) -> Option<Onward>
    ensures { result ≡ to separator phase pending declared }
{
    Some(Onward {
        separator,
        phase,
        pending,
        declared,
    })
}

// How many operands stand behind a word of the goal; None where it is no such word.
fn operands_of(text: &[u8], declared: usize, word: &[u8]) -> Option<usize>
    ensures { behind_said result ≡ operands_of (names_in declared text.now) word.now }
{
    let behind = words::operands_behind(words::kind_named(word));
    if behind.is_some() {
        return behind;
    }
    if words::is_number(word) || words::variable_named(text, declared, word) < declared {
        return Some(0);
    }
    None
}

fn from_line(declared: usize, word: &[u8]) -> Option<Onward>
    ensures { result ≡ from_line declared word.now }
{
    if records::same_bytes(b"var", word) {
        return to(b' ', Phase::Named, 0, declared);
    }
    if records::same_bytes(b"goal", word) {
        return to(b' ', Phase::Operand, 0, declared);
    }
    None
}

fn from_name(text: &[u8], declared: usize, word: &[u8]) -> Option<Onward>
    requires { declared < length text.now }
    ensures { result ≡ from_name declared word.now }
{
    if words::is_plain_name(word) {
        return to(b' ', Phase::Least, 0, declared + 1);
    }
    None
}

// Behind a number come this separator and this phase.
fn from_number(separator: u8, phase: Phase, declared: usize, word: &[u8]) -> Option<Onward>
    ensures { result ≡ from_number separator phase declared word.now }
{
    if words::is_number(word) {
        return to(separator, phase, 0, declared);
    }
    None
}

fn from_operand(text: &[u8], here: Here, word: &[u8]) -> Option<Onward>
    requires { (here.pending ≤ 2 * here.start) × (here.start < length text.now) }
    ensures { result ≡ from_operand text.now here.declared here.pending word.now }
{
    let left = operands_of(text, here.declared, word)? + here.pending;
    if left == 0 {
        return to(b'\n', Phase::Done, 0, here.declared);
    }
    to(b' ', Phase::Operand, left - 1, here.declared)
}

// Where the word leads that stands here.
fn lead(text: &[u8], here: Here, word: &[u8]) -> Option<Onward>
    requires { Stands text.now here × (here.start < length text.now) }
    ensures { result ≡ onward_at text.now here word.now }
{
    match here.phase {
        Phase::Line => from_line(here.declared, word),
        Phase::Named => from_name(text, here.declared, word),
        Phase::Least => from_number(b' ', Phase::Most, here.declared, word),
        Phase::Most => from_number(b'\n', Phase::Line, here.declared, word),
        Phase::Operand => from_operand(text, here, word),
        Phase::Done => None,
    }
}

// The next word.
fn word_at(text: &[u8], here: Here) -> &[u8]
    requires { here.start ≤ length text.now }
    ensures { result.now ≡ word_at text.now here }
{
    &text[here.start..words::word_end(text, here.start)]
}

// Behind the next word and its separator, where there is a way on.
fn ahead(text: &[u8], here: Here) -> Option<Here>
    requires { Stands text.now here }
    ensures { Steps text.now here result }
{
    let end = words::word_end(text, here.start);
    let separator = *text.get(end)?;
    let next = lead(text, here, &text[here.start..end])?;
    if next.separator != separator {
        return None;
    }
    Some(Here {
        phase: next.phase,
        pending: next.pending,
        declared: next.declared,
        start: end + 1,
    })
}

// Whether these bytes begin a word.
#[tactic(auto, using(crate::proofs::Beginnings::starts))]
fn beginning(bytes: &[u8], word: &[u8]) -> bool
    ensures { result ≡ beginning bytes.now word.now }
{
    word.starts_with(bytes)
}

fn begins_line(bytes: &[u8]) -> bool
    ensures { result ≡ beginning bytes.now (ascii "var") || beginning bytes.now (ascii "goal") }
{
    beginning(bytes, b"var") || beginning(bytes, b"goal")
}

#[tactic(auto, using(crate::proofs::Beginnings::name_parts))]
fn begins_name(bytes: &[u8]) -> bool
    ensures { result ≡ begins_name bytes.now }
{
    bytes.is_empty() || bytes.len() <= MOST_NAME_BYTES && records::name_right(bytes)
}

#[tactic(auto, using(crate::proofs::Beginnings::number_parts))]
fn begins_number(bytes: &[u8]) -> bool
    ensures { result ≡ begins_number bytes.now }
{
    bytes.is_empty() || words::is_number(bytes) || records::same_bytes(bytes, b"-")
}

// Whether they begin one of so many names.
fn begins_declared(text: &[u8], count: usize, bytes: &[u8]) -> bool
    ensures { result ≡ begins_any (names_in count text.now) bytes.now }
{
    let mut line = 0;
    for _i in 0..count {
        if beginning(bytes, words::name_at(text, line)) {
            return true;
        }
        line = words::next_line(text, line);
    }
    false
}

// Whether they begin a kind's word.
fn begins_kind(bytes: &[u8]) -> bool
    ensures { result ≡ begins_any (plain_words worded) bytes.now }
{
    WORDED
        .iter()
        .any(|kind| beginning(bytes, words::word_of(*kind)))
}

// Whether they begin a word of the goal.
fn begins_operand(text: &[u8], declared: usize, bytes: &[u8]) -> bool
    ensures { result ≡ begins_any (plain_words worded) bytes.now || (begins_number bytes.now || begins_any (names_in declared text.now) bytes.now) }
{
    begins_kind(bytes) || begins_number(bytes) || begins_declared(text, declared, bytes)
}

// Whether they begin a word that may stand here.
#[tactic(auto, unfolding(texts::specs::Places::begins))]
fn begins(text: &[u8], here: Here, bytes: &[u8]) -> bool
    ensures { result ≡ begins (place_at text.now here) bytes.now }
{
    match here.phase {
        Phase::Line => begins_line(bytes),
        Phase::Named => begins_name(bytes),
        Phase::Least | Phase::Most => begins_number(bytes),
        Phase::Operand => begins_operand(text, here.declared, bytes),
        Phase::Done => false,
    }
}

// How many bytes of a word begin one that may stand here.
fn reach(text: &[u8], here: Here, word: &[u8]) -> usize
    ensures { result ≡ reach (place_at text.now here) word.now }
{
    for k in 0..word.len() {
        if !begins(text, here, &word[..k + 1]) {
            return k;
        }
    }
    word.len()
}

// Where a text is left whose next word may not stand here.
fn left(text: &[u8], here: Here) -> usize
    requires { here.start ≤ length text.now }
    ensures { result ≡ here.start + reach (place_at text.now here) (word_at text.now here) }
{
    here.start + reach(text, here, word_at(text, here))
}

// What is said where there is no way on. Behind the goal nothing may stand.
fn stopped(text: &[u8], here: Here) -> Result<(), usize>
    requires { here.start ≤ length text.now }
    ensures { stop_of result ≡ stop_at text.now here }
{
    match here.phase {
        Phase::Done if text.len() <= here.start => Ok(()),
        Phase::Done => Err(here.start),
        _ => Err(left(text, here)),
    }
}

// A whole text, or the place of the first byte that fits none, or the length where the bytes stop short.
pub fn scan(text: &[u8]) -> Result<(), usize>
    ensures { ScanSays text.now result }
{
    let mut here = Here {
        phase: Phase::Line,
        pending: 0,
        declared: 0,
        start: 0,
    };
    while let Some(next) = ahead(text, here) {
        here = next;
    }
    stopped(text, here)
}
