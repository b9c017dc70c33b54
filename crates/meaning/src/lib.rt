// What a node gives: a truth value or an integer. The rest of the crate is definitions: see specs/.
#![tactic(auto)]

#[derive(Clone, Copy, Debug, PartialEq, Eq)]
pub enum Sort {
    Truth,
    Integer,
}
