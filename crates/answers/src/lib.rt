// The answer to a request about a sheet, written into lent room: one line, or the script.
#![tactic(auto)]

ghost use Rattle.std.specs.Prelude.{◌≤◌, length};
ghost use Rattle.layout.specs.Limits.{most_nodes};
ghost use Rattle.io.specs.Counts.{IsPrefixLen};
ghost use Rattle.room.specs.Room.{Wrote};
ghost use Rattle.writer.specs.Writes.{enough_room};
ghost use Rattle.wording.specs.Form.{form_of};
ghost use Rattle.answers.specs.Answers.{script_answer, answer_text};
ghost use Rattle.answers.specs.Replies.{WroteReply};
ghost use Rattle.answers.specs.declared.Request.TheVariants.{Read, Check, Tally};

use cases::Verdict;
use layout::MOST_VARIABLES;
use trial::Replied;
use wording::ScriptForm;

// A room is asked to have at least so many bytes, by a clause: an array of just as many would ask more.
// What is asked of a sheet.
#[derive(Clone, Copy, Debug, PartialEq, Eq)]
pub enum Request {
    Read,
    Script,
    Ask,
    Check,
    Tally,
}

// Accepted, or the refusal.
fn read_answer(sheet: &[u8], room: &mut [u8]) -> usize
    requires { enough_room ≤ length room.old }
    ensures { Wrote (answer_text most_nodes Read sheet.now) room.old room.new 0 result }
{
    match reading::read(sheet) {
        Ok(()) => room::put(room, 0, b"accepted\n"),
        Err(refused) => phrases::refused_line(room, refused.into()),
    }
}

// The script, or the refusal; no script is longer than the room.
fn script_answer(sheet: &[u8], form: ScriptForm, room: &mut [u8]) -> usize
    requires { enough_room ≤ length room.old }
    ensures { Wrote (script_answer most_nodes (form_of form) sheet.now) room.old room.new 0 result }
{
    match writer::write_script(sheet, form, room) {
        Ok(size) => size,
        Err(refused) => phrases::refused_line(room, refused.into()),
    }
}

// What a check says: that the rule holds, the first case in which it fails, or the refusal.
fn check_answer(sheet: &[u8], room: &mut [u8]) -> usize
    requires { enough_room ≤ length room.old }
    ensures { Wrote (answer_text most_nodes Check sheet.now) room.old room.new 0 result }
{
    let mut row = [0i16; MOST_VARIABLES];
    match cases::check(sheet, &mut row) {
        Ok(Verdict::Holds) => room::put(room, 0, b"holds\n"),
        Ok(Verdict::Fails) => phrases::fails_line(sheet, &row, room),
        Err(refused) => phrases::refused_line(room, refused.into()),
    }
}

// How many cases held and failed, or the refusal.
fn tally_answer(sheet: &[u8], room: &mut [u8]) -> usize
    requires { enough_room ≤ length room.old }
    ensures { Wrote (answer_text most_nodes Tally sheet.now) room.old room.new 0 result }
{
    let tallied = cases::tally(sheet);
    match tallied.reading {
        Ok(()) => {
            phrases::numbers_line(
                room,
                b"held ",
                tallied.held as u64,
                b" failed ",
                tallied.failed as u64,
            )
        }
        Err(refused) => phrases::refused_line(room, refused.into()),
    }
}

// The answer to a request about a sheet, at the front of the room; how many bytes it has. Each answer is asked for in its own way, so
// that this is a match, and no table of closures.
pub fn answer(request: Request, sheet: &[u8], room: &mut [u8]) -> usize
    requires { enough_room ≤ length room.old }
    ensures wrote { Wrote (answer_text most_nodes request sheet.now) room.old room.new 0 result }
    ensures prefix_len { IsPrefixLen result room.new }
{
    match request {
        Request::Read => read_answer(sheet, room),
        Request::Script => script_answer(sheet, ScriptForm { models: false }, room),
        Request::Ask => script_answer(sheet, ScriptForm { models: true }, room),
        Request::Check => check_answer(sheet, room),
        Request::Tally => tally_answer(sheet, room),
    }
}

// What a solver's reply comes to: that unsat is claimed, the failing case, or the refusal; at the front of the room.
pub fn reply_answer(sheet: &[u8], reply: &[u8], room: &mut [u8]) -> usize
    requires { enough_room ≤ length room.old }
    ensures wrote_reply { WroteReply most_nodes sheet.now reply.now room.old room.new result }
    ensures prefix_len { IsPrefixLen result room.new }
{
    let mut row = [0i16; MOST_VARIABLES];
    match trial::reply_into(sheet, reply, &mut row) {
        Ok(Replied::Unsat) => room::put(room, 0, b"unsat claimed\n"),
        Ok(Replied::Fails) => phrases::fails_line(sheet, &row, room),
        Err(refused) => phrases::refused_line(room, refused.into()),
    }
}
