// The types in which the engine's calls answer. What each call promises is defined in specs/.
#![tactic(auto)]

ghost use Rattle.std.specs.Prelude.{◌≡◌, ◌<◌, ◌^◌, ℕ, get_or};
ghost use Rattle.session.specs.Limits.{word_bits};
ghost use Rattle.promises.specs.Answers.{firing, number};

use std::error::Error;
use std::fmt;

// The rules by their numbers. What breaks one or more is refused with the first of them.
#[derive(Clone, Copy, Debug, PartialEq, Eq)]
pub enum Refusal {
    NoFrame = 1,
    NotNow = 2,
    MemoryShort = 3,
    StatesWrong = 4,
    LinkWrong = 5,
    NodesWrong = 6,
    EdgesWrong = 7,
    EdgeNodeWrong = 8,
    EdgesUnordered = 9,
    NotInLayout = 10,
    NameWrong = 11,
    EdgePresent = 12,
    EdgesFull = 13,
    EdgeAbsent = 14,
}

impl From<Refusal> for u8 {
    ghost from_gives = { λ rule n. n ≡ number rule };

    fn from(rule: Refusal) -> u8 {
        rule as u8
    }
}

impl fmt::Display for Refusal {
    fn fmt<W: fmt::Write>(&self, f: &mut fmt::Formatter<W>) -> fmt::Result {
        let number = u8::from(*self);
        write!(f, "rule {number}")
    }
}

impl Error for Refusal {}

// What a load is given: a list for each field, and the set of inverted states. The fields stand in lists of their own, as a caller in C has them. That their
// words are 16 bits wide is known of parameters, and of fields where the type says it: `of` asks nothing.
#[derive(Clone, Copy, Debug)]
pub struct Lists<'a> {
    pub masks: &'a [u16],
    pub values: &'a [u16],
    pub links: &'a [u32],
    pub inverted: u32,
    pub samples: &'a [u16],
    pub starts: &'a [u32],
    pub ends: &'a [u32],
    ghost masks_fit: { (i : ℕ) → get_or masks.now i 0 < 2 ^ word_bits },
    ghost values_fit: { (i : ℕ) → get_or values.now i 0 < 2 ^ word_bits },
    ghost samples_fit: { (i : ℕ) → get_or samples.now i 0 < 2 ^ word_bits },
}

impl<'a> Lists<'a> {
    ghost use Rattle.promises.specs.Rules.{given, given_by};

    pub fn of(
        masks: &'a [u16],
        values: &'a [u16],
        links: &'a [u32],
        inverted: u32,
        samples: &'a [u16],
        starts: &'a [u32],
        ends: &'a [u32],
    ) -> Lists<'a>
        ensures { given_by result ≡ given masks.now values.now links.now inverted samples.now starts.now ends.now }
    {
        Lists {
            masks,
            values,
            links,
            inverted,
            samples,
            starts,
            ends,
        }
    }
}

// Whether every state that is reached from State One stands at some node.
#[derive(Clone, Copy, Debug, PartialEq, Eq)]
pub enum Firing {
    Fires,
    Silent,
}

impl From<bool> for Firing {
    ghost from_gives = { λ fires r. firing r ≡ fires };

    fn from(fires: bool) -> Firing {
        if fires { Firing::Fires } else { Firing::Silent }
    }
}

impl From<Firing> for bool {
    ghost from_gives = { λ answer r. r ≡ firing answer };

    fn from(answer: Firing) -> bool {
        answer == Firing::Fires
    }
}

impl fmt::Display for Firing {
    fn fmt<W: fmt::Write>(&self, f: &mut fmt::Formatter<W>) -> fmt::Result {
        match self {
            Firing::Fires => write!(f, "fires"),
            Firing::Silent => write!(f, "silent"),
        }
    }
}

#[derive(Clone, Copy, Debug, PartialEq, Eq)]
pub struct Report {
    pub firing: Firing,
    pub trials: u32,
    pub changes: u32,
}

// The answer to a load or an edit.
pub type Answer = Result<Report, Refusal>;

// Whether a state stands at a node.
#[derive(Clone, Copy, Debug, PartialEq, Eq)]
pub enum Standing {
    Stands,
    Absent,
}

// The states in depth-first order: how many, and their numbers; places past them are zero.
#[derive(Clone, Copy, Debug, PartialEq, Eq)]
pub struct StateOrder {
    pub count: u8,
    pub states: [u8; session::MAX_STATES],
}
