// A sheet, read: accepted or refused, and a variable's name.
#![tactic(auto)]

ghost use Rattle.std.specs.Prelude.{◌≡◌};
ghost use Rattle.refusals.specs.Said.{said_of};
ghost use Rattle.layout.specs.Limits.{most_nodes};
ghost use Rattle.reading.specs.Cascade.{refusal_of};
ghost use Rattle.reading.specs.Name.{NamePart};

use numbers::VariableNumber;
use refusals::Refused;

pub mod accepted;

// Accepted, or refusal 1 to 8 with its place.
#[tactic(auto, using(crate::proofs::ReadLaws::one_block, crate::proofs::ReadLaws::read_counted, crate::proofs::ReadLaws::records_inside), unfolding(crate::specs::Cascade::refusal_of))]
pub fn read(sheet: &[u8]) -> Result<(), Refused>
    ensures { said_of result ≡ refusal_of most_nodes sheet.now }
{
    blocks::read_blocks(sheet)?;
    header::read_header(sheet)?;
    records::read_variables(sheet)?;
    nodes::read_nodes(sheet)
}

// A variable's name as the very part of the sheet; an empty part where the sheet is refused or there is no such variable: document 01
// hands that back, so there is no Option (`Name: NamePart`).
#[tactic(auto, using(crate::proofs::ReadLaws::accepted_long))]
pub fn name(sheet: &[u8], variable: VariableNumber) -> &[u8]
    ensures { NamePart most_nodes sheet.entry variable.0 result }
{
    let Ok(()) = read(sheet) else {
        return &sheet[0..0];
    };
    if header::variable_count(sheet) <= variable.0 as usize {
        return &sheet[0..0];
    }
    records::name_in(sheet, records::variable_place(variable))
}
