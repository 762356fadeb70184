// What a message says.
ghost use Rattle.std.specs.Prelude.{◌≡◌, ◌<◌, ◌&&◌, [], ◌∷◌, nat_le, MatchResult};
ghost use Rattle.words.specs.Answers.{told, answer, ask};
ghost use Rattle.messages.specs.Model.{operation_number, side_number, tag_number, operation_of, stamp_of};

use words::{Refusal, UnknownNumber};

#[derive(Clone, Copy, PartialEq, Eq, Debug)]
pub enum Operation {
    Insert = 1,
    Delete = 2,
}

impl From<Operation> for u8 {
    ghost from_gives = { λ operation n. n ≡ operation_number operation };

    fn from(operation: Operation) -> u8 {
        operation as u8
    }
}

// Any other number than those of the operations is refused as a head.
impl TryFrom<u32> for Operation {
    type Error = Refusal;

    ghost try_from_gives = { λ n outcome. told operation_number outcome ≡ answer (ask 3 (nat_le 1 n && nat_le n 2) ∷ []) n };

    fn try_from(n: u32) -> Result<Operation, Refusal> {
        match n {
            1 => Ok(Operation::Insert),
            2 => Ok(Operation::Delete),
            _ => Err(Refusal::Head),
        }
    }
}

#[derive(Clone, Copy, PartialEq, Eq, Debug)]
pub enum Side {
    Left = 0,
    Right = 1,
}

impl From<Side> for u8 {
    ghost from_gives = { λ side n. n ≡ side_number side };

    fn from(side: Side) -> u8 {
        side as u8
    }
}

impl TryFrom<u32> for Side {
    type Error = UnknownNumber;

    ghost try_from_gives = { λ n outcome. MatchResult outcome (λ side. side_number side ≡ n) (λ e. (e.0 ≡ n) × (1 < n)) };

    fn try_from(n: u32) -> Result<Side, UnknownNumber> {
        match n {
            0 => Ok(Side::Left),
            1 => Ok(Side::Right),
            _ => Err(UnknownNumber(n)),
        }
    }
}

// What a word of a message holds, by its tag.
#[derive(Clone, Copy, PartialEq, Eq, Debug)]
pub enum Tag {
    Head = 1,
    OwnStamp = 2,
    ParentStamp = 3,
    OnGround = 4,
    OnSide = 5,
    EntryValue = 6,
}

impl From<Tag> for u8 {
    ghost from_gives = { λ tag n. n ≡ tag_number tag };

    fn from(tag: Tag) -> u8 {
        tag as u8
    }
}

// Where an insertion hangs: on the ground, or on one side of another stamp.
#[derive(Clone, Copy, PartialEq, Eq, Debug)]
pub enum Place<S> {
    Ground,
    Under { side: Side, parent: S },
}

#[derive(Clone, Copy, PartialEq, Eq, Debug)]
pub enum Message<S, E> {
    Insertion { stamp: S, place: Place<S>, entry: E },
    Deletion { stamp: S },
}

impl<S: Copy, E: Copy> Message<S, E> {
    pub fn operation(&self) -> Operation
        ensures { result ≡ operation_of self.now }
    {
        match self {
            Message::Insertion { .. } => Operation::Insert,
            Message::Deletion { .. } => Operation::Delete,
        }
    }

    // The stamp that the message bears.
    pub fn stamp(&self) -> S
        ensures { result ≡ stamp_of self.now }
    {
        match self {
            Message::Insertion { stamp, .. } | Message::Deletion { stamp } => *stamp,
        }
    }
}
