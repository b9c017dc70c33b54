// What C and Rust call, as include/ragwashin.h declares it: each call is capi's of the same name, with the same promise. It is a crate
// of its own, since C's static library is no library for Rattle.
#![tactic(auto)]

ghost use Rattle.std.specs.Prelude.{◌≡◌, true, false};
ghost use Rattle.layout.specs.Limits.{most_nodes};
ghost use Rattle.wording.specs.Form.{sixteen};
ghost use Rattle.capi.specs.Codes.{read_code, name_code, block_code, CheckCodes, tally_code, ScriptCodes, MakeCodes, TextCodes, ReplyCodes, DigitsCodes};

#[unsafe(no_mangle)]
pub extern "C" fn ragwashin_read(sheet: &[u8]) -> u64
    ensures { result ≡ read_code most_nodes sheet.now }
{
    capi::ragwashin_read(sheet)
}

#[unsafe(no_mangle)]
pub extern "C" fn ragwashin_name(sheet: &[u8], variable: u16) -> u64
    ensures { result ≡ name_code most_nodes sheet.now variable }
{
    capi::ragwashin_name(sheet, variable)
}

#[unsafe(no_mangle)]
pub extern "C" fn ragwashin_block(sheet: &[u8], k: u64) -> u64
    ensures { result ≡ block_code sheet.now k }
{
    capi::ragwashin_block(sheet, k)
}

#[unsafe(no_mangle)]
pub extern "C" fn ragwashin_check(sheet: &[u8], room: &mut [i16]) -> u64
    ensures { CheckCodes most_nodes sheet.now room.old result room.new }
{
    capi::ragwashin_check(sheet, room)
}

#[unsafe(no_mangle)]
pub extern "C" fn ragwashin_tally(sheet: &[u8]) -> u64
    ensures { result ≡ tally_code most_nodes sheet.now }
{
    capi::ragwashin_tally(sheet)
}

#[unsafe(no_mangle)]
pub extern "C" fn ragwashin_script(sheet: &[u8], room: &mut [u8]) -> u64
    ensures { ScriptCodes most_nodes (sixteen false) sheet.now room.old result room.new }
{
    capi::ragwashin_script(sheet, room)
}

#[unsafe(no_mangle)]
pub extern "C" fn ragwashin_ask(sheet: &[u8], room: &mut [u8]) -> u64
    ensures { ScriptCodes most_nodes (sixteen true) sheet.now room.old result room.new }
{
    capi::ragwashin_ask(sheet, room)
}

#[unsafe(no_mangle)]
pub extern "C" fn ragwashin_make(text: &[u8], room: &mut [u8]) -> u64
    ensures { MakeCodes most_nodes text.now room.old result room.new }
{
    capi::ragwashin_make(text, room)
}

#[unsafe(no_mangle)]
pub extern "C" fn ragwashin_text(sheet: &[u8], room: &mut [u8]) -> u64
    ensures { TextCodes most_nodes sheet.now room.old result room.new }
{
    capi::ragwashin_text(sheet, room)
}

#[unsafe(no_mangle)]
pub extern "C" fn ragwashin_reply(sheet: &[u8], reply: &[u8]) -> u64
    ensures { ReplyCodes most_nodes sheet.now reply.now result }
{
    capi::ragwashin_reply(sheet, reply)
}

#[unsafe(no_mangle)]
pub extern "C" fn ragwashin_digits(sheet: &[u8], reply: &[u8], variable: u16) -> u64
    ensures { DigitsCodes most_nodes sheet.now reply.now variable result }
{
    capi::ragwashin_digits(sheet, reply, variable)
}
