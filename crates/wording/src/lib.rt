// The form that a script is to have. The script's text itself is in definitions alone: see specs/.
#![tactic(auto)]

// Whether the script asks for a failing case.
#[derive(Clone, Copy, Debug, PartialEq, Eq)]
pub struct ScriptForm {
    pub models: bool,
}
