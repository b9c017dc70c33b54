// Why a sheet, a text or a reply is turned away: the error of every call that refuses, and the refusal by which document 01 tells it.
#![tactic(auto)]

ghost use Rattle.std.specs.Prelude.{◌≡◌};
ghost use Rattle.refusals.specs.Causes.{refusal_of, caused_by, cause_of};

// What was found, in the order of document 01's table and of those behind it: a cause's number is the refusal's.
#[derive(Clone, Copy, Debug, PartialEq, Eq)]
pub enum Cause {
    Length = 1,
    Check,
    Edition,
    Counts,
    Variable,
    Node,
    Sort,
    Range,
    Room,
    Cases,
    Reply,
    Value,
    Holds,
    Text = 18,
    Word,
}

// The error of a call that refuses: the cause, and the place where it was found.
#[derive(Clone, Copy, Debug, PartialEq, Eq)]
pub struct Refused {
    pub cause: Cause,
    pub place: usize,
}

// A refusal as document 01 tells it: its number, and the place.
#[derive(Clone, Copy, Debug, PartialEq, Eq)]
pub struct Refusal {
    pub number: u16,
    pub place: usize,
}

impl From<Refused> for Refusal {
    ghost from_gives = { λ e r. r ≡ refusal_of e };

    fn from(refused: Refused) -> Refusal {
        Refusal {
            number: refused.cause as u16,
            place: refused.place,
        }
    }
}

// The cause with this number; an error where none has it.
impl TryFrom<u16> for Cause {
    type Error = ();

    fn try_from(number: u16) -> Result<Cause, ()>
        ensures { cause_of result ≡ caused_by number }
    {
        match number {
            1 => Ok(Cause::Length),
            2 => Ok(Cause::Check),
            3 => Ok(Cause::Edition),
            4 => Ok(Cause::Counts),
            5 => Ok(Cause::Variable),
            6 => Ok(Cause::Node),
            7 => Ok(Cause::Sort),
            8 => Ok(Cause::Range),
            9 => Ok(Cause::Room),
            10 => Ok(Cause::Cases),
            11 => Ok(Cause::Reply),
            12 => Ok(Cause::Value),
            13 => Ok(Cause::Holds),
            18 => Ok(Cause::Text),
            19 => Ok(Cause::Word),
            _ => Err(()),
        }
    }
}
