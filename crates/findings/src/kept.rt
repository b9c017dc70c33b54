// What is kept of a node that was read: a truth value, or an integer in a range whose ends have 16 bits. Each value stands for a finding
// that fits, so an array of them asks nothing of who lends it.
#![tactic(auto)]

#[derive(Clone, Copy, Debug, PartialEq, Eq)]
pub enum Kept {
    Truth,
    Integer(i16, i16),
}
