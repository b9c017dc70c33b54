// The calls of the C interface, on numbers and slices, each answer one number. See include/ragwashin.h. Crate capi_c
// exports them.
#![tactic(auto)]

ghost use Rattle.std.specs.Prelude.{◌≡◌, ◌<◌, ◌^◌, true, false};
ghost use Rattle.layout.specs.Limits.{most_nodes};
ghost use Rattle.wording.specs.Form.{sixteen, form_of};
ghost use Rattle.capi.specs.Codes.{read_code, name_code, block_code, refusal_code, CheckCodes, tally_code, tellable, told_of, written_code, ScriptCodes, MakeCodes, TextCodes, ReplyCodes, DigitsCodes};

use cases::Verdict;
use layout::NAME_START;
use numbers::VariableNumber;
use refusals::{Refusal, Refused};
use trial::Replied;
use wording::ScriptForm;

const NUMBER: u64 = 281474976710656;

const OFFSET: u64 = 65536;

const COUNT: u64 = 16777216;

pub fn ragwashin_read(sheet: &[u8]) -> u64
    ensures { result ≡ read_code most_nodes sheet.now }
{
    match reading::read(sheet) {
        Ok(()) => 0,
        Err(refused) => refusal_code(refused.into()),
    }
}

pub fn ragwashin_name(sheet: &[u8], variable: u16) -> u64
    ensures { result ≡ name_code most_nodes sheet.now variable }
{
    let part = reading::name(sheet, VariableNumber(variable));
    let size = part.len() as u64;
    if size == 0 {
        return 0;
    }
    let start = records::variable_place(VariableNumber(variable)) + NAME_START;
    (start as u64) * OFFSET + size
}

pub fn ragwashin_block(sheet: &[u8], k: u64) -> u64
    ensures { result ≡ block_code sheet.now k }
{
    blocks::block(sheet, k as usize).len() as u64
}

// A refusal as one number.
fn refusal_code(refusal: Refusal) -> u64
    requires { refusal.place < 2 ^ 48 }
    ensures { result ≡ refusal_code refusal }
{
    refusal.number as u64 * NUMBER + refusal.place as u64
}

pub fn ragwashin_check(sheet: &[u8], room: &mut [i16]) -> u64
    ensures { CheckCodes most_nodes sheet.now room.old result room.new }
{
    match cases::check(sheet, room) {
        Ok(Verdict::Holds) => 0,
        Ok(Verdict::Fails) => 1,
        Err(refused) => refusal_code(refused.into()),
    }
}

pub fn ragwashin_tally(sheet: &[u8]) -> u64
    ensures { result ≡ tally_code most_nodes sheet.now }
{
    let tallied = cases::tally(sheet);
    match tallied.reading {
        Ok(()) => tallied.held as u64 * COUNT + tallied.failed as u64,
        Err(refused) => refusal_code(refused.into()),
    }
}

// A place that 48 bits hold: itself, or the greatest.
fn told_place(place: usize) -> usize
    ensures { (result ≡ tellable place) × (result < 2 ^ 48) }
{
    place.min(NUMBER as usize - 1)
}

// A refusal as it is told of a text or a reply, which may be longer than 48 bits say.
fn told(refused: Refused) -> Refusal
    ensures { (result ≡ told_of refused) × (result.place < 2 ^ 48) }
{
    Refusal {
        number: refused.cause as u16,
        place: told_place(refused.place),
    }
}

// What a call that writes bytes answers, as one number.
fn written_code(written: Result<usize, Refused>) -> u64
    ensures { result ≡ written_code written }
{
    match written {
        Ok(size) => size as u64,
        Err(refused) => refusal_code(told(refused)),
    }
}

// What the writer answers, as one number.
fn script_code(sheet: &[u8], form: ScriptForm, room: &mut [u8]) -> u64
    ensures { ScriptCodes most_nodes (form_of form) sheet.now room.old result room.new }
{
    written_code(writer::write_script(sheet, form, room))
}

pub fn ragwashin_script(sheet: &[u8], room: &mut [u8]) -> u64
    ensures { ScriptCodes most_nodes (sixteen false) sheet.now room.old result room.new }
{
    script_code(sheet, ScriptForm { models: false }, room)
}

pub fn ragwashin_ask(sheet: &[u8], room: &mut [u8]) -> u64
    ensures { ScriptCodes most_nodes (sixteen true) sheet.now room.old result room.new }
{
    script_code(sheet, ScriptForm { models: true }, room)
}

pub fn ragwashin_make(text: &[u8], room: &mut [u8]) -> u64
    ensures { MakeCodes most_nodes text.now room.old result room.new }
{
    written_code(maker::make(text, room))
}

pub fn ragwashin_text(sheet: &[u8], room: &mut [u8]) -> u64
    ensures { TextCodes most_nodes sheet.now room.old result room.new }
{
    written_code(printer::print(sheet, room))
}

pub fn ragwashin_reply(sheet: &[u8], reply: &[u8]) -> u64
    ensures { ReplyCodes most_nodes sheet.now reply.now result }
{
    match trial::reply(sheet, reply) {
        Ok(Replied::Unsat) => 0,
        Ok(Replied::Fails) => 1,
        Err(refused) => refusal_code(told(refused)),
    }
}

pub fn ragwashin_digits(sheet: &[u8], reply: &[u8], variable: u16) -> u64
    ensures { DigitsCodes most_nodes sheet.now reply.now variable result }
{
    let span = trial::digits_span(sheet, reply, VariableNumber(variable));
    let start = span.start as u64;
    if start < NUMBER {
        return start * OFFSET + span.size as u64;
    }
    0
}
