// Reads a solver's reply, one part of its grammar after another.
#![tactic(auto)]

ghost use Rattle.std.specs.Prelude.{◌≡◌, ◌+◌, ◌/◌, ◌%◌, eqb, replicate, Ok};
ghost use Rattle.lists.specs.Ascii.{ascii};
ghost use Rattle.smtlib.specs.Characters.{white_space};
ghost use Rattle.smtlib.specs.Tokens.{digit_value};
ghost use Rattle.wording.specs.Sixteen.{symbol_text};
ghost use Rattle.grammar.specs.Patterns.{end, one, exact, times};
ghost use Rattle.replies.specs.Replies.{blanks, mark, digit_to, any_value, pair, pairs, listed, claim};
ghost use Rattle.replies.specs.Answers.{Answers, sat_first};
ghost use Rattle.replies.specs.Here.{stop_from, Passes, Takes, first_digit, place_of};

// How many digits of each kind spell a value.
pub const HEX_DIGITS: usize = 4;

pub const BINARY_DIGITS: usize = 16;

// A part of the reader starts before a place. It answers the place behind the part, or the one at which the bytes fit no reply.

// These tests are compiled to one test of a bit, and those of `matches!` to three.
#[tactic(auto, unfolding(smtlib::specs::Characters::white_space))]
fn blank(c: u8) -> bool
    ensures { result ≡ white_space c }
{
    c == b' ' || c == b'\n' || c == b'\t' || c == b'\r'
}

// A digit's value, in either case; 16 for any other byte: no Option, since SMT-LIB's reading has a value for each (`Tokens: digit_value`).
#[tactic(auto, using(crate::proofs::ByteLaws::digit_laws))]
pub fn digit(c: u8) -> u8
    ensures { result ≡ digit_value c }
{
    match c {
        b'0'..=b'9' => c - b'0',
        b'A'..=b'F' => c - b'A' + 10,
        b'a'..=b'f' => c - b'a' + 10,
        _ => 16,
    }
}

// One byte that the test fits.
fn one<F: Fn(u8) -> bool>(reply: &[u8], at: usize, fits: F) -> Result<usize, usize>
    requires { F.IsAlwaysCallable fits }
    ensures { Takes reply.now at (F.post fits) result }
{
    match reply.get(at) {
        Some(c) if fits(*c) => Ok(at + 1),
        _ => Err(at),
    }
}

fn byte(reply: &[u8], at: usize, wanted: u8) -> Result<usize, usize>
    ensures { Passes (one (eqb wanted)) reply.now at result }
{
    one(reply, at, |c| c == wanted)
}

fn one_blank(reply: &[u8], at: usize) -> Result<usize, usize>
    ensures { Passes (one white_space) reply.now at result }
{
    one(reply, at, blank)
}

fn one_digit(reply: &[u8], at: usize, base: u8) -> Result<usize, usize>
    ensures { Passes (one (digit_to base)) reply.now at result }
{
    one(reply, at, |c| digit(c) < base)
}

// All blanks from here on.
fn blanks(reply: &[u8], at: usize) -> usize
    ensures { Passes blanks reply.now at (Ok result) }
{
    let rest = reply.get(at..).unwrap_or(&[]);
    at + rest.iter().position(|c| !blank(*c)).unwrap_or(rest.len())
}

// These bytes.
fn text(reply: &[u8], mut at: usize, wanted: &[u8]) -> Result<usize, usize>
    ensures { Passes (exact wanted.now) reply.now at result }
{
    for c in wanted {
        at = byte(reply, at, *c)?;
    }
    Ok(at)
}

// Blanks and a parenthesis.
fn mark(reply: &[u8], at: usize, wanted: u8) -> Result<usize, usize>
    ensures { Passes (mark wanted) reply.now at result }
{
    byte(reply, blanks(reply, at), wanted)
}

// So many digits to the base.
#[tactic(auto, using(crate::proofs::PassLaws::digits_read))]
fn numeral(reply: &[u8], mut at: usize, base: u8, count: usize) -> Result<usize, usize>
    ensures { Passes (times count (digit_to base)) reply.now at result }
{
    for _i in 0..count {
        at = one_digit(reply, at, base)?;
    }
    Ok(at)
}

// The letter of a base, and the digits.
fn based(reply: &[u8], at: usize, letter: u8, base: u8, count: usize) -> Result<usize, usize>
    ensures { Passes (λ p. one (eqb letter) (times count (digit_to base) p)) reply.now at result }
{
    let digits = byte(reply, at, letter)?;
    numeral(reply, digits, base, count)
}

fn value(reply: &[u8], at: usize) -> Result<usize, usize>
    ensures { Passes any_value reply.now at result }
{
    let letter = byte(reply, at, b'#')?;
    if reply.get(letter) == Some(&b'x') {
        return based(reply, letter, b'x', 16, HEX_DIGITS);
    }
    based(reply, letter, b'b', 2, BINARY_DIGITS)
}

fn tens(i: usize) -> u8
    ensures { result ≡ 48 + i / 10 % 10 }
{
    b'0' + (i / 10 % 10) as u8
}

fn units(i: usize) -> u8
    ensures { result ≡ 48 + i % 10 }
{
    b'0' + (i % 10) as u8
}

// A symbol's first digit, where it has two.
fn first_digit(reply: &[u8], at: usize, i: usize) -> Result<usize, usize>
    ensures { Passes (exact (first_digit i)) reply.now at result }
{
    if i < 10 {
        return Ok(at);
    }
    byte(reply, at, tens(i))
}

#[tactic(auto, using(crate::proofs::PassLaws::symbol_read))]
fn symbol(reply: &[u8], at: usize, i: usize) -> Result<usize, usize>
    ensures { Passes (exact (symbol_text i)) reply.now at result }
{
    let digits = byte(reply, at, b'v')?;
    let last = first_digit(reply, digits, i)?;
    byte(reply, last, units(i))
}

// A pair up to its symbol.
fn opened(reply: &[u8], at: usize, i: usize) -> Result<usize, usize>
    ensures { Passes (λ p. mark 40 (blanks (exact (symbol_text i) p))) reply.now at result }
{
    let open = mark(reply, at, b'(')?;
    symbol(reply, blanks(reply, open), i)
}

// A variable and its value.
fn pair(reply: &[u8], at: usize, i: usize) -> Result<usize, usize>
    ensures { Passes (pair i any_value) reply.now at result }
{
    let named = opened(reply, at, i)?;
    let gap = one_blank(reply, named)?;
    let said = value(reply, blanks(reply, gap))?;
    mark(reply, said, b')')
}

// Each variable once, in order.
#[tactic(auto, using(crate::proofs::PassLaws::pairs_read))]
fn pairs(reply: &[u8], mut at: usize, count: usize) -> Result<usize, usize>
    ensures { Passes (pairs 0 (replicate count any_value)) reply.now at result }
{
    for i in 0..count {
        at = pair(reply, at, i)?;
    }
    Ok(at)
}

// The list, where there are variables, and blanks.
#[tactic(auto, using(crate::proofs::PassLaws::list_read))]
fn list(reply: &[u8], at: usize, count: usize) -> Result<usize, usize>
    ensures { stop_from (listed (replicate count any_value)) reply.now (Ok at) ≡ stop_from end reply.now result }
{
    if count == 0 {
        return Ok(blanks(reply, at));
    }
    let open = mark(reply, at, b'(')?;
    let last = pairs(reply, open, count)?;
    let close = mark(reply, last, b')')?;
    Ok(blanks(reply, close))
}

// The reply must end here.
#[tactic(auto, using(crate::proofs::PassLaws::end_none, crate::proofs::PassLaws::end_some))]
fn ended(reply: &[u8], at: usize) -> Result<(), usize>
    ensures { place_of result ≡ stop_from end reply.now (Ok at) }
{
    if at < reply.len() {
        return Err(at);
    }
    Ok(())
}

// Behind `unsat`: the end, or a blank, and anything may follow.
#[tactic(auto, using(crate::proofs::PassLaws::claim_end, crate::proofs::PassLaws::claim_on, crate::proofs::PassLaws::claim_off))]
fn claimed(reply: &[u8], at: usize) -> Result<(), usize>
    ensures { place_of result ≡ stop_from claim reply.now (Ok at) }
{
    if at < reply.len() {
        one_blank(reply, at)?;
    }
    Ok(())
}

fn unsat(reply: &[u8], at: usize) -> Result<(), usize>
    ensures { place_of result ≡ stop_from (exact (ascii "unsat") claim) reply.now (Ok at) }
{
    let word = text(reply, at, b"unsat")?;
    claimed(reply, word)
}

fn sat(reply: &[u8], at: usize, count: usize) -> Result<(), usize>
    ensures { place_of result ≡ stop_from (exact (ascii "sat") (listed (replicate count any_value))) reply.now (Ok at) }
{
    let word = text(reply, at, b"sat")?;
    let last = list(reply, word, count)?;
    ended(reply, last)
}

// How far the bytes begin a reply for `count` variables: they are one, or the place of the first that fits none.
pub fn reach(reply: &[u8], count: usize) -> Result<(), usize>
    ensures { Answers count reply.now result }
{
    let word = blanks(reply, 0);
    if reply.get(word) == Some(&b'u') {
        return unsat(reply, word);
    }
    sat(reply, word, count)
}

// The first word begins as `sat` does. Where it is inlined, each blank costs a third more: the caller's answer at the end is made at each.
#[inline(never)]
pub fn says_sat(reply: &[u8]) -> bool
    ensures { result ≡ sat_first reply.now }
{
    reply.iter().find(|c| !blank(**c)) == Some(&b's')
}
