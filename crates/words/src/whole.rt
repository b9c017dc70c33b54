// A whole text, as a type: bytes that the grammar allows, and how many variables and nodes they declare.
// Each method says so again in its contract, for the caller's proof.

ghost use Rattle.std.specs.Prelude.{◌≡◌, ◌+◌, List, ℕ, length};
ghost use Rattle.texts.specs.Counts.{occurrences};
ghost use Rattle.texts.specs.Expressions.{Draft, records_of};
ghost use Rattle.texts.specs.Texts.{Says, Text};

use std::marker::Model;

// The spaces of a variable's line.
const LINE_SPACES: usize = 3;

// The bytes of a text, and how many variables they declare, counted once: they have a line feed for each, and one for the goal.
#[derive(Drop)]
pub struct Whole<'a> {
    bytes: &'a [u8],
    variables: usize,
}

impl<'a> Model for Whole<'a> {
    ghost Value = { List ℕ };

    ghost view = { λ text. text.bytes.now };

    ghost invariant = { λ text. Text text.bytes.now × (occurrences 10 text.bytes.now ≡ text.variables + 1) };
}

impl<'a> Whole<'a> {
    // Bytes that are a text, as one.
    pub fn new(text: &'a [u8]) -> Self
        requires { Text text.now }
        ensures { result ≡ text.now }
    {
        Whole {
            bytes: text,
            variables: crate::occurrences(text, b'\n') - 1,
        }
    }
}

impl Whole<'_> {
    // The text's bytes.
    pub fn bytes(&self) -> &[u8]
        ensures same { result.now ≡ self.now }
        ensures text { Text self.now }
    {
        self.bytes
    }

    // How many variables the text declares.
    pub fn variable_count(&self) -> usize
        ensures count { (d : Draft) → Says self.now d → result ≡ length d.variables }
        ensures text { Text self.now }
    {
        self.variables
    }

    // A space before each node's word, and three in each variable's line.
    pub fn node_count(&self) -> usize
        ensures count { (d : Draft) → Says self.now d → result ≡ length (records_of d.goal 0) }
        ensures text { Text self.now }
    {
        crate::occurrences(self.bytes, b' ') - LINE_SPACES * self.variables
    }
}
