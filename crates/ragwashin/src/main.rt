// Answers requests about sheets, in files or on standard input, and about solvers' replies, and makes sheets of texts and texts of sheets; with no word it writes the script.
#![tactic(auto)]

ghost use Rattle.std.specs.Prelude.{◌≡◌, ◌≤◌, true, false, length, take, Ok, IfSome, IfOk, OnOk};
ghost use Rattle.std.specs.Io.KnownBytes.{Appends, Consumes};
ghost use Rattle.io.specs.Counts.{IsPrefixLen};
ghost use Rattle.ragwashin.specs.Inputs.{HasEnded, HasRead};
ghost use Rattle.ragwashin.specs.Words.{word_of, is_line, gives_lines, is_text};

use answers::Request;
use layout::MOST_SHEET_BYTES;
use printer::LONGEST_TEXT;
use sources::LONGEST_LINE;
use std::env::FillError;
use std::fmt::InlineText;
use std::fs::File;
use std::io::{Error, Read, Write};
use std::rt::Env;
use std::str::from_utf8;
use writer::ENOUGH_ROOM;

// One byte more than the longest sheet has: a longer input is refused by its length.
const MOST_READ: usize = MOST_SHEET_BYTES + 1;

// Behind the program's name and the word.
const FIRST_FILE: usize = 2;

// The longest reply that is judged, and one byte more.
const MOST_REPLY: usize = 65536;

const MOST_REPLY_READ: usize = MOST_REPLY + 1;

// The longest text that is judged, and one byte more.
const MOST_TEXT: usize = 65536;

const MOST_TEXT_READ: usize = MOST_TEXT + 1;

// Behind the sheet that it is a reply to.
const REPLY_FILE: usize = FIRST_FILE + 1;

// The system's numbers of reasons: none, a name that is too long, and bytes that are no text.
const NO_REASON: i32 = 0;

const NAME_TOO_LONG: i32 = 36;

const NO_UTF8: i32 = 84;

const HELP: &str = "usage: ragwashin [WORD [FILE ...]]

Answers about each FILE, a rule sheet, or a rule's text where the name ends in
.rule; about a sheet on standard input where none is named.

  read    accepted
  check   holds, or fails NAME=VALUE ...: the first failing case
  tally   held H failed F: how many cases held and how many failed
  script  the script for an SMT solver, of one FILE; so too where WORD is left out
  ask     the same, and it asks for a failing case
  make    the sheet of one text, whatever its name, or of standard input
  text    the text of one sheet
  --help  this text

ragwashin reply SHEET [REPLY] judges what a solver answered to ask, in the file
REPLY or on standard input: fails NAME=VALUE ..., a case that was tried and does
fail, or unsat claimed. A reply off its grammar is refused 11, a value off its
domain 12, a case that does not fail 13.

./ragwashin solve FILE ... asks a solver (z3 or cvc5, or the command in
RAGWASHIN_SOLVER, for 60 seconds or RAGWASHIN_SECONDS) and judges its reply.

A text has a line 'var NAME MIN MAX' for each variable, then a line 'goal' with
an expression, each word before its operands: true false not and or implies iff
eq lt le neg add sub mul if, decimal numbers, and the variables' names.

A sheet that is turned away is answered by 'refused R at P', a text so too, with
' (line L column C)' behind it where it points at a byte. Where two or more files
are named, 'FILE: ' stands before each answer.
  refused 18: no text begins like this; P is the first byte that fits none
  refused 19: no text can be written, since the name of variable P is a word

Exit status of ./ragwashin: 0 accepted, holds, written, none failed, or unsat
claimed; 1 fails, or some failed; 2 refused; 3 anything else, with a message on
standard error. Of several files the highest.
";

// What is done with an input: a text's sheet, a sheet's text, or an answer.
#[derive(Clone, Copy)]
enum Job {
    Make,
    Text,
    Answer(Request),
}

// What the first word asks for.
#[derive(Clone, Copy)]
enum Word {
    Help,
    Reply,
    Asks(Job),
}

const WORDS: [(&[u8], Word); 9] = [
    (b"read", Word::Asks(Job::Answer(Request::Read))),
    (b"script", Word::Asks(Job::Answer(Request::Script))),
    (b"ask", Word::Asks(Job::Answer(Request::Ask))),
    (b"check", Word::Asks(Job::Answer(Request::Check))),
    (b"tally", Word::Asks(Job::Answer(Request::Tally))),
    (b"make", Word::Asks(Job::Make)),
    (b"text", Word::Asks(Job::Text)),
    (b"reply", Word::Reply),
    (b"--help", Word::Help),
];

// What a text means; nothing where it is no word.
fn word_of(text: &[u8]) -> Option<Word>
    ensures { result ≡ word_of text.now }
{
    WORDS
        .iter()
        .find(|(name, _)| text == *name)
        .map(|(_, word)| *word)
}

// Answers of one line can follow one another; scripts cannot.
fn is_line(request: Request) -> bool
    ensures { result ≡ is_line request }
{
    matches!(request, Request::Read | Request::Check | Request::Tally)
}

fn gives_lines(job: Job) -> bool
    ensures { result ≡ gives_lines job }
{
    matches!(job, Job::Answer(request) if is_line(request))
}

// Writes all the bytes; stops at the first write that fails or takes nothing. That of std tries again after an interruption, and has words of its own for nothing taken.
fn write_all<W: Write>(to: &mut W, bytes: &[u8]) -> Result<(), Error>
    ensures { OnOk result (Appends (W.contents to.old) (W.contents to.new) bytes.now) }
{
    let mut rest = bytes;
    while !rest.is_empty() {
        let n = to.write(rest)?;
        if n == 0 {
            return Err(Error::from_raw_os_error(NO_REASON));
        }
        rest = &rest[n..];
    }
    Ok(())
}

// Reads until the room is full, the input ends or a read fails: how many bytes, and the reason where one failed.
fn read_full<R: Read>(from: &mut R, room: &mut [u8]) -> (usize, Result<(), Error>)
    ensures prefix_len { IsPrefixLen result.0 room.new }
    ensures bytes { Consumes (R.remaining from.old) (R.remaining from.new) (take result.0 room.new) }
{
    let mut done = 0;
    while done < room.len() {
        match from.read(&mut room[done..]) {
            Ok(0) => return (done, Ok(())),
            Ok(n) => done += n,
            Err(reason) => return (done, Err(reason)),
        }
    }
    (done, Ok(()))
}

// Only a read that gives 0 bytes tells that an input has ended, and not that a read of it failed; of a longer one no more than the most is looked at.
fn has_ended<R: Read>(from: &mut R, size: usize, most: usize) -> Result<bool, Error>
    ensures most { size ≡ most → result ≡ Ok true }
    ensures end { IfOk result (HasEnded (R.remaining from.old) (R.remaining from.new) size most) }
{
    Ok(size == most || from.read(&mut [0u8; 1])? == 0)
}

// Reads an input to its end, or as much of it as the room holds.
fn read_all<R: Read>(from: &mut R, room: &mut [u8]) -> Result<usize, Error>
    ensures prefix_len { IfOk result (λ n. IsPrefixLen n room.new) }
    ensures bytes { IfOk result (λ n. HasRead (R.remaining from.old) (take n room.new) (length room.new)) }
{
    let (size, filled) = read_full(from, room);
    if has_ended(from, size, room.len())? {
        return Ok(size);
    }
    // Where no read failed, one told of an end before the end: the system has no reason for that.
    filled?;
    Err(Error::from_raw_os_error(NO_REASON))
}

// Writes a part of a message. Where that fails, nobody can be told.
fn say(rt: &HostRuntime, words: &[u8]) {
    let _ = write_all(&mut rt.stderr(), words);
}

// The words of a reason, behind which std puts its number.
fn words_of(reason: &str) -> &str {
    reason
        .rsplit_once(" (os error ")
        .map_or(reason, |(words, _)| words)
}

// Ends a message: what failed, and the system's reason.
fn fail(rt: &HostRuntime, what: &[u8], reason: Error) {
    let text = InlineText::<128>::of(reason);
    say(rt, what);
    say(rt, b": ");
    say(rt, words_of(text.as_str()).as_bytes());
    say(rt, b"\n");
}

// What failed, of which input, and the system's reason.
fn say_failed(rt: &HostRuntime, name: &[u8], what: &[u8], reason: Error) {
    say(rt, b"ragwashin: ");
    say(rt, name);
    say(rt, b": ");
    fail(rt, what, reason);
}

// An argument that is too long for any file's name is told by its place.
fn say_too_long(rt: &HostRuntime, place: usize) {
    let mut digits = [0u8; 20];
    let size = io::decimal(place as u64, &mut digits);
    say(rt, b"ragwashin: argument ");
    say(rt, &digits[..size]);
    fail(rt, b"", Error::from_raw_os_error(NAME_TOO_LONG));
}

fn say_unknown(rt: &HostRuntime, word: &[u8]) {
    say(rt, b"ragwashin: unknown word '");
    say(rt, word);
    say(rt, b"' (ragwashin --help lists the words)\n");
}

fn say_one(rt: &HostRuntime, words: &[u8]) {
    say(rt, b"ragwashin: ");
    say(rt, words);
    say(
        rt,
        b" take one file, and several are named: nothing is written\n",
    );
}

fn say_one_file(rt: &HostRuntime, job: Job) {
    match job {
        Job::Make | Job::Text => say_one(rt, b"make and text"),
        Job::Answer(_) => say_one(rt, b"script and ask"),
    }
}

fn say_one_reply(rt: &HostRuntime) {
    say(
        rt,
        b"ragwashin: reply takes a sheet and at most one reply to it: nothing is judged\n",
    );
}

fn say_long_text(rt: &HostRuntime, name: &[u8]) {
    say(rt, b"ragwashin: ");
    say(rt, name);
    say(
        rt,
        b": the text has more than 65536 bytes: it is not judged\n",
    );
}

fn say_long_reply(rt: &HostRuntime) {
    say(
        rt,
        b"ragwashin: the reply has more than 65536 bytes: it is not judged\n",
    );
}

// Whether a file of this name has a text in it.
fn is_text(name: &[u8]) -> bool
    ensures { result ≡ is_text name.now }
{
    name.ends_with(b".rule")
}

// An input, by its name, and what is told about it; where several files are named, the name stands before the answer.
#[derive(Clone, Copy)]
struct Input<'a> {
    rt: &'a HostRuntime,
    name: &'a [u8],
    is_named: bool,
}

impl<'a> Input<'a> {
    // The one input that is asked about.
    fn lone(rt: &'a HostRuntime, name: &'a [u8]) -> Input<'a> {
        Input {
            rt,
            name,
            is_named: false,
        }
    }

    fn write_line(self, text: &[u8]) -> Result<(), Error> {
        let mut out = self.rt.stdout();
        if self.is_named {
            write_all(&mut out, self.name)?;
            write_all(&mut out, b": ")?;
        }
        write_all(&mut out, text)
    }

    // Writes an answer, or says why it can't.
    fn tell(self, text: &[u8]) {
        if let Err(reason) = self.write_line(text) {
            say_failed(self.rt, self.name, b"its answer cannot be written", reason);
        }
    }

    // Reads a sheet, a text or a reply, or says why it can't.
    fn read<R: Read>(self, from: &mut R, room: &mut [u8]) -> Option<usize>
        ensures prefix_len { IfSome result (λ n. IsPrefixLen n room.new) }
        ensures bytes { IfSome result (λ n. HasRead (R.remaining from.old) (take n room.new) (length room.new)) }
    {
        match read_all(from, room) {
            Ok(size) => Some(size),
            Err(reason) => {
                say_failed(self.rt, self.name, b"cannot be read", reason);
                None
            }
        }
    }

    // Makes the sheet of a text, or answers with the line of its refusal.
    fn make_sheet(self, text: &[u8], sheet: &mut [u8]) -> Option<usize>
        ensures { IfSome result (λ n. IsPrefixLen n sheet.new) }
    {
        let mut line = [0u8; LONGEST_LINE];
        match sources::sheet_of(text, sheet, &mut line) {
            Ok(size) => Some(size),
            Err(size) => {
                self.tell(&line[..size]);
                None
            }
        }
    }

    // Reads a text, and makes its sheet. The text's room is given back before the sheet is answered for.
    #[inline(never)]
    fn read_text(self, from: &mut impl Read, sheet: &mut [u8]) -> Option<usize>
        ensures { IfSome result (λ n. IsPrefixLen n sheet.new) }
    {
        let mut text = [0u8; MOST_TEXT_READ];
        let size = self.read(from, &mut text)?;
        if MOST_TEXT < size {
            say_long_text(self.rt, self.name);
            return None;
        }
        self.make_sheet(&text[..size], sheet)
    }

    // Takes the sheet that a file has, or that its text makes.
    fn take_sheet<R: Read>(self, from: &mut R, sheet: &mut [u8]) -> Option<usize>
        ensures prefix_len { IfSome result (λ n. IsPrefixLen n sheet.new) }
        ensures bytes { is_text self.entry.name.now ≡ false → IfSome result (λ n. HasRead (R.remaining from.old) (take n sheet.new) (length sheet.new)) }
    {
        if is_text(self.name) {
            return self.read_text(from, sheet);
        }
        self.read(from, sheet)
    }

    // Answers it.
    #[inline(never)]
    fn answer(self, request: Request, from: &mut impl Read) {
        let mut sheet = [0u8; MOST_READ];
        if let Some(size) = self.take_sheet(from, &mut sheet) {
            let mut room = [0u8; ENOUGH_ROOM];
            let length = answers::answer(request, &sheet[..size], &mut room);
            self.tell(&room[..length]);
        }
    }

    // Writes the sheet of a text.
    #[inline(never)]
    fn write_sheet(self, from: &mut impl Read) {
        let mut sheet = [0u8; MOST_READ];
        if let Some(size) = self.read_text(from, &mut sheet) {
            self.tell(&sheet[..size]);
        }
    }

    // Writes the text of a sheet.
    #[inline(never)]
    fn write_text(self, from: &mut impl Read) {
        let mut sheet = [0u8; MOST_READ];
        if let Some(size) = self.read(from, &mut sheet) {
            let mut room = [0u8; LONGEST_TEXT];
            let length = sources::text_answer(&sheet[..size], &mut room);
            self.tell(&room[..length]);
        }
    }

    // Does what is asked with it.
    fn work(self, job: Job, from: &mut impl Read) {
        match job {
            Job::Make => self.write_sheet(from),
            Job::Text => self.write_text(from),
            Job::Answer(request) => self.answer(request, from),
        }
    }
}

// How many arguments there are, the program's name among them.
fn arg_count(rt: &HostRuntime) -> usize {
    for place in 0..usize::MAX {
        if let Err(FillError::NotPresent) = rt.arg(place, &mut [0u8; 0]) {
            return place;
        }
    }
    usize::MAX
}

// Puts an argument to the front of the room and gives its size; says so where it is too long.
fn argument(rt: &HostRuntime, place: usize, room: &mut [u8]) -> Option<usize>
    ensures { IfSome result (λ n. n ≤ length room.new) }
{
    match rt.arg(place, room) {
        Ok(size) => Some(size),
        Err(_) => {
            say_too_long(rt, place);
            None
        }
    }
}

// Opens a file to read it. A path of std's is text.
fn open_read(rt: &HostRuntime, name: &[u8]) -> Result<File, Error> {
    let path = from_utf8(name).map_err(|_| Error::from_raw_os_error(NO_UTF8))?;
    File::open(rt, path)
}

// Opens the file that an argument names, or says why it can't.
fn open_argument(rt: &HostRuntime, name: &[u8]) -> Option<File> {
    match open_read(rt, name) {
        Ok(file) => Some(file),
        Err(reason) => {
            say_failed(rt, name, b"cannot be opened", reason);
            None
        }
    }
}

// Works on the file that an argument names.
fn work_on_file(rt: &HostRuntime, job: Job, place: usize, is_named: bool) {
    let mut path = io::buffer();
    let Some(size) = argument(rt, place, &mut path) else {
        return;
    };
    let Some(mut file) = open_argument(rt, &path[..size]) else {
        return;
    };
    let input = Input {
        rt,
        name: &path[..size],
        is_named,
    };
    input.work(job, &mut file);
}

// Works on each file up to the last argument, whatever became of those before it.
fn work_on_files(rt: &HostRuntime, job: Job, arguments: usize) {
    for place in FIRST_FILE..arguments {
        work_on_file(rt, job, place, true);
    }
}

fn work_on_all(rt: &HostRuntime, job: Job, arguments: usize) {
    if arguments <= FIRST_FILE {
        Input::lone(rt, b"standard input").work(job, &mut rt.stdin());
    } else if arguments == FIRST_FILE + 1 {
        work_on_file(rt, job, FIRST_FILE, false);
    } else if gives_lines(job) {
        work_on_files(rt, job, arguments);
    } else {
        say_one_file(rt, job);
    }
}

// Judges the reply that an open file has.
#[inline(never)]
fn judge(rt: &HostRuntime, sheet: &[u8], from: &mut impl Read) {
    let input = Input::lone(rt, b"the reply");
    let mut reply = [0u8; MOST_REPLY_READ];
    let Some(size) = input.read(from, &mut reply) else {
        return;
    };
    if MOST_REPLY < size {
        say_long_reply(rt);
        return;
    }
    let mut room = [0u8; ENOUGH_ROOM];
    let length = answers::reply_answer(sheet, &reply[..size], &mut room);
    input.tell(&room[..length]);
}

// Opens the file with the reply.
#[inline(never)]
fn open_reply(rt: &HostRuntime) -> Option<File> {
    let mut path = io::buffer();
    let size = argument(rt, REPLY_FILE, &mut path)?;
    open_argument(rt, &path[..size])
}

// Judges the reply in a file, or on standard input where none is named.
fn judge_reply(rt: &HostRuntime, sheet: &[u8], arguments: usize) {
    if arguments <= REPLY_FILE {
        judge(rt, sheet, &mut rt.stdin());
        return;
    }
    if let Some(mut file) = open_reply(rt) {
        judge(rt, sheet, &mut file);
    }
}

// Takes the sheet that is replied to. Unlike `take_sheet`, it calls a sheet so in messages, and not by its file's name.
fn take_replied<R: Read>(
    rt: &HostRuntime,
    from: &mut R,
    name: &[u8],
    sheet: &mut [u8],
) -> Option<usize>
    ensures prefix_len { IfSome result (λ n. IsPrefixLen n sheet.new) }
    ensures bytes { is_text name.now ≡ false → IfSome result (λ n. HasRead (R.remaining from.old) (take n sheet.new) (length sheet.new)) }
{
    if is_text(name) {
        return Input::lone(rt, name).read_text(from, sheet);
    }
    Input::lone(rt, b"the sheet").read(from, sheet)
}

// Takes the sheet of an open file, and judges the reply to it. The file is closed first: it has standard input's number where that is closed.
#[inline(never)]
fn judge_by(rt: &HostRuntime, mut file: File, name: &[u8], arguments: usize) {
    let mut sheet = [0u8; MOST_READ];
    let taken = take_replied(rt, &mut file, name, &mut sheet);
    drop(file);
    if let Some(size) = taken {
        judge_reply(rt, &sheet[..size], arguments);
    }
}

// The word `reply`: a sheet, and at most one reply.
fn reply(rt: &HostRuntime, arguments: usize) {
    if arguments <= FIRST_FILE || REPLY_FILE + 1 < arguments {
        say_one_reply(rt);
        return;
    }
    let mut path = io::buffer();
    let Some(size) = argument(rt, FIRST_FILE, &mut path) else {
        return;
    };
    if let Some(file) = open_argument(rt, &path[..size]) {
        judge_by(rt, file, &path[..size], arguments);
    }
}

fn help(rt: &HostRuntime) {
    if let Err(reason) = write_all(&mut rt.stdout(), HELP.as_bytes()) {
        say_failed(rt, b"--help", b"cannot be written", reason);
    }
}

fn main(rt: HostRuntime) {
    let arguments = arg_count(&rt);
    if arguments < FIRST_FILE {
        work_on_all(&rt, Job::Answer(Request::Script), arguments);
        return;
    }
    let mut text = io::buffer();
    let Some(size) = argument(&rt, 1, &mut text) else {
        return;
    };
    match word_of(&text[..size]) {
        None => say_unknown(&rt, &text[..size]),
        Some(Word::Help) => help(&rt),
        Some(Word::Reply) => reply(&rt, arguments),
        Some(Word::Asks(job)) => work_on_all(&rt, job, arguments),
    }
}
