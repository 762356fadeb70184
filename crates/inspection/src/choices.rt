// Which kinds of stamp and entry the messages are to have.
ghost use Rattle.std.specs.Prelude.{◌≡◌, IfOk, Some, codes};
ghost use Rattle.std.specs.Result.{result_ok};
ghost use Rattle.inspection.specs.Choices.{chosen, entries_named, report_for, stamps_named, usual};

use crate::reports::report;
use entries::{Character, RegisterEntry};
use stamps::{PairStamp, TicketStamp};
use std::alloc::{AllocError, Global};
use std::error::Error;
use std::fmt;
use std::str::FromStr;

// A word that names no kind.
#[derive(Clone, Copy, PartialEq, Eq, Debug)]
pub struct UnknownKind;

impl fmt::Display for UnknownKind {
    ghost output = { λ e. Some (codes "no kind has this name") };

    fn fmt<W: fmt::Write>(&self, f: &mut fmt::Formatter<W>) -> fmt::Result {
        write!(f, "no kind has this name")
    }
}

impl Error for UnknownKind {}

#[derive(Clone, Copy, PartialEq, Eq, Debug)]
pub enum StampKind {
    Pair,
    Ticket,
}

impl FromStr for StampKind {
    type Err = UnknownKind;

    ghost from_str_gives = { λ word named. result_ok named ≡ stamps_named word };

    #[tactic(auto, using(words::proofs::Sames::test_from_apart))]
    fn from_str(word: &str) -> Result<StampKind, UnknownKind> {
        match word {
            "pair" => Ok(StampKind::Pair),
            "ticket" => Ok(StampKind::Ticket),
            _ => Err(UnknownKind),
        }
    }
}

#[derive(Clone, Copy, PartialEq, Eq, Debug)]
pub enum EntryKind {
    Character,
    Register,
}

impl FromStr for EntryKind {
    type Err = UnknownKind;

    ghost from_str_gives = { λ word named. result_ok named ≡ entries_named word };

    #[tactic(auto, using(words::proofs::Sames::test_from_apart))]
    fn from_str(word: &str) -> Result<EntryKind, UnknownKind> {
        match word {
            "character" => Ok(EntryKind::Character),
            "register" => Ok(EntryKind::Register),
            _ => Err(UnknownKind),
        }
    }
}

#[derive(Clone, Copy, PartialEq, Eq, Debug)]
pub struct Kinds {
    pub stamps: StampKind,
    pub entries: EntryKind,
}

// What is taken where the user chooses nothing.
impl Default for Kinds {
    ghost is_default = { λ kinds. kinds ≡ usual };

    fn default() -> Kinds {
        Kinds {
            stamps: StampKind::Pair,
            entries: EntryKind::Register,
        }
    }
}

impl Kinds {
    // The choice with what a word of the user's changes in it, if it is one of the four.
    pub fn choose(self, word: &str) -> Option<Kinds>
        ensures { result ≡ chosen self word.now }
    {
        if let Ok(stamps) = word.parse::<StampKind>() {
            return Some(Kinds { stamps, ..self });
        }
        let entries = word.parse::<EntryKind>().ok()?;
        Some(Kinds { entries, ..self })
    }

    // The report on a run of messages of these kinds.
    // An arm for each pair of kinds, since a value cannot name the types that they choose.
    pub fn report(self, heap: Global, bytes: &[u8]) -> Result<Vec<u8>, AllocError>
        ensures { IfOk result (λ v. v.items ≡ report_for self.stamps self.entries bytes.now) }
    {
        match (self.stamps, self.entries) {
            (StampKind::Pair, EntryKind::Character) => report::<PairStamp, Character>(heap, bytes),
            (StampKind::Pair, EntryKind::Register) => report::<PairStamp, RegisterEntry>(
                heap, bytes,
            ),
            (StampKind::Ticket, EntryKind::Character) => report::<TicketStamp, Character>(
                heap, bytes,
            ),
            (StampKind::Ticket, EntryKind::Register) => report::<TicketStamp, RegisterEntry>(
                heap, bytes,
            ),
        }
    }
}
