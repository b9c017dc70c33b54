// A sheet that is accepted, as a type: who has one needs no more than the numbers of its variables and nodes to read it.
// Each method says so again in its contract, for the caller's proof.

ghost use Rattle.std.specs.Prelude.{◌≡◌, ◌<◌, List, ℕ};
ghost use Rattle.std.proofs.Math.Option.{none};
ghost use Rattle.layout.specs.Limits.{most_nodes};
ghost use Rattle.layout.specs.Parts.{node_count, variable_count, variable_at, goal_at, table};
ghost use Rattle.reading.specs.Cascade.{refusal_of};
ghost use Rattle.reading.specs.Accepts.{Accepts};

use kinds::Record;
use numbers::{NodeNumber, VariableNumber};
use refusals::Refused;
use std::marker::Model;

// The bytes of an accepted sheet.
#[derive(Drop)]
pub struct Accepted<'a> {
    bytes: &'a [u8],
}

impl<'a> Model for Accepted<'a> {
    ghost Value = { List ℕ };

    ghost view = { λ sheet. sheet.bytes.now };

    ghost invariant = { λ sheet. refusal_of most_nodes sheet.bytes.now ≡ none };
}

// The sheet, where it is accepted; else refusal 1 to 8 with its place.
pub fn accept(sheet: &[u8]) -> Result<Accepted<'_>, Refused>
    ensures { Accepts most_nodes sheet.now result }
{
    crate::read(sheet)?;
    Ok(Accepted::new(sheet))
}

impl<'a> Accepted<'a> {
    // Bytes that are an accepted sheet, as one: no more is asked of who has them, and they are not read again.
    pub fn new(sheet: &'a [u8]) -> Self
        requires { refusal_of most_nodes sheet.now ≡ none }
        ensures { result ≡ sheet.now }
    {
        Accepted { bytes: sheet }
    }
}

impl Accepted<'_> {
    // The sheet's bytes.
    pub fn bytes(&self) -> &[u8]
        ensures same { result.now ≡ self.now }
        ensures accepted { refusal_of most_nodes self.now ≡ none }
    {
        self.bytes
    }

    // V, the number of variables.
    #[tactic(auto, using(crate::proofs::ReadLaws::accepted_block))]
    pub fn variable_count(&self) -> usize
        ensures count { result ≡ variable_count self.now }
        ensures accepted { refusal_of most_nodes self.now ≡ none }
    {
        header::variable_count(self.bytes)
    }

    // N, the number of nodes.
    #[tactic(auto, using(crate::proofs::ReadLaws::accepted_block))]
    pub fn node_count(&self) -> usize
        ensures count { result ≡ node_count self.now }
        ensures accepted { refusal_of most_nodes self.now ≡ none }
    {
        header::node_count(self.bytes)
    }

    // The goal, the last node.
    #[tactic(auto, using(crate::proofs::ReadLaws::accepted_block, crate::proofs::ReadLaws::some_nodes))]
    pub fn goal(&self) -> NodeNumber
        ensures node { result.0 ≡ goal_at self.now }
        ensures below { result.0 < node_count self.now }
        ensures accepted { refusal_of most_nodes self.now ≡ none }
    {
        NodeNumber((header::node_count(self.bytes) - 1) as u16)
    }

    // A variable's name.
    pub fn name(&self, n: VariableNumber) -> &[u8]
        requires { n.0 < variable_count self.now }
        ensures name { result.now ≡ (variable_at self.now n.0).name }
        ensures accepted { refusal_of most_nodes self.now ≡ none }
    {
        records::name_in(self.bytes, records::variable_place(n))
    }

    // A node's record.
    pub fn record(&self, n: NodeNumber) -> Record
        requires { n.0 < node_count self.now }
        ensures record { result ≡ table self.now n.0 }
        ensures accepted { refusal_of most_nodes self.now ≡ none }
    {
        records::record_at(self.bytes, n)
    }
}
