// What a call answers when it does not do what it was asked, and what receiving answers when it does.
ghost use Rattle.std.specs.Prelude.{◌≡◌, Some};
ghost use Rattle.words.specs.Answers.{refusal_number, refusal_place, meaning_of, refusal_shown, is_new};

use std::error::Error;
use std::fmt;

// Every refusal of every call. Words are counted from the head, which is word 0.
#[derive(Clone, Copy, PartialEq, Eq, Debug)]
pub enum Refusal {
    // 1: the table has not 1 to 4,096 slots
    TableSize,
    // 2: the site is not 1 to 999
    SiteNumber,
    // 3: no first word with tag 1 and operation 1 or 2
    Head,
    // 4: not the kinds of stamp and entry that are expected
    Kinds,
    // 5: not as many words as the head says, or as the layout has
    Length,
    // 6: the word at this place has another tag, or a value that its tag does not allow
    Word { at: usize },
    // 7: the stamp that begins at this place does not read, or is its own parent
    Stamp { at: usize },
    // 8: the entry does not read; words received tell where it begins, values handed in do not
    Entry { at: Option<usize> },
    // 9: another insertion is held under the stamp
    OtherInsertion,
    // 10: no slot is free
    NoSlot,
    // 11: the stamp is not inserted on this page
    NotInserted,
    // 12: the entry does not stand
    NotStanding,
    // 13: the site has used its last counter
    NoFreshCounter,
    // 14: the entry is struck already
    AlreadyStruck,
    // 15: the space is too short
    SpaceTooShort,
    // 16: nothing is unsent
    NothingUnsent,
}

impl Refusal {
    // The place of the first word at fault, where one is told.
    pub fn place(self) -> Option<usize>
        ensures { result ≡ refusal_place self }
    {
        match self {
            Refusal::Word { at } | Refusal::Stamp { at } => Some(at),
            Refusal::Entry { at } => at,
            _ => None,
        }
    }

    // What was refused, in plain English.
    pub fn meaning(self) -> &'static str
        ensures { result.now ≡ meaning_of (refusal_number self) }
    {
        match self {
            Refusal::TableSize => "the table does not have 1 to 4096 slots",
            Refusal::SiteNumber => "the site is not a number from 1 to 999",
            Refusal::Head => "there is no head that names an insertion or a deletion",
            Refusal::Kinds => "the kinds of stamp and entry are not those expected",
            Refusal::Length => "the number of words is not that of the head and the layout",
            Refusal::Word { .. } =>
                "a word has the wrong tag or a value that its tag does not allow",
            Refusal::Stamp { .. } =>
                "the values of a stamp do not read, or an entry is placed under itself",
            Refusal::Entry { .. } => "the values of the entry do not read",
            Refusal::OtherInsertion => "another insertion is held under the stamp",
            Refusal::NoSlot => "no slot is free",
            Refusal::NotInserted => "the stamp named is not inserted here",
            Refusal::NotStanding => "the entry named does not stand",
            Refusal::NoFreshCounter => "the site has no fresh counter left",
            Refusal::AlreadyStruck => "the entry is struck already",
            Refusal::SpaceTooShort => "the space is too short",
            Refusal::NothingUnsent => "nothing is unsent",
        }
    }
}

// A refusal's number.
impl From<Refusal> for u8 {
    ghost from_gives = { λ e n. n ≡ refusal_number e };

    fn from(refusal: Refusal) -> u8 {
        match refusal {
            Refusal::TableSize => 1,
            Refusal::SiteNumber => 2,
            Refusal::Head => 3,
            Refusal::Kinds => 4,
            Refusal::Length => 5,
            Refusal::Word { .. } => 6,
            Refusal::Stamp { .. } => 7,
            Refusal::Entry { .. } => 8,
            Refusal::OtherInsertion => 9,
            Refusal::NoSlot => 10,
            Refusal::NotInserted => 11,
            Refusal::NotStanding => 12,
            Refusal::NoFreshCounter => 13,
            Refusal::AlreadyStruck => 14,
            Refusal::SpaceTooShort => 15,
            Refusal::NothingUnsent => 16,
        }
    }
}

impl fmt::Display for Refusal {
    ghost output = { λ e. Some (refusal_shown (refusal_number e) (refusal_place e)) };

    fn fmt<W: fmt::Write>(&self, f: &mut fmt::Formatter<W>) -> fmt::Result {
        let number = u8::from(*self);
        let meaning = self.meaning();
        match self.place() {
            Some(at) => write!(f, "refused {number} at word {at}: {meaning}"),
            None => write!(f, "refused {number}: {meaning}"),
        }
    }
}

impl Error for Refusal {}

// What became of a message that was received.
#[derive(Clone, Copy, PartialEq, Eq, Debug)]
pub enum Received {
    New,
    Held,
}

impl Received {
    pub fn is_new(self) -> bool
        ensures { result ≡ is_new self }
    {
        matches!(self, Received::New)
    }
}
