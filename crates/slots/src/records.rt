// A record of the table.
ghost use Rattle.std.specs.Prelude.{◌≡◌, true, false, not, is_some};
ghost use Rattle.std.specs.Option.{option_map};
ghost use Rattle.words.specs.Forms.{same_values};
ghost use Rattle.messages.specs.Model.{place_said, said, stamp_of};
ghost use Rattle.ledger.specs.Calls.{blank, merge};
ghost use Rattle.ledger.specs.Ledger.{same_place};
ghost use Rattle.ledger.specs.Receive.{no_other};
ghost use Rattle.slots.specs.Rows.{Fills, entry_in, holds_in, is_taken, is_unsent, made_row, next_in, place_in, row_in, sent_row, struck_row, unsent_in};

use entries::Entry;
use messages::{Message, Operation, Place};
use stamps::{Site, Stamp};
use words::WordForm;

// What a slot knows of one of the two messages under its stamp.
#[derive(Clone, Copy, PartialEq, Eq, Debug)]
pub enum Status {
    // not taken
    Absent,
    // made here, and not sent yet
    Unsent,
    // taken, with nothing left to send
    Settled,
}

impl Status {
    fn is_taken(self) -> bool
        ensures { result ≡ is_taken self }
    {
        self != Status::Absent
    }

    fn is_unsent(self) -> bool
        ensures { result ≡ is_unsent self }
    {
        self == Status::Unsent
    }

    // Taken now, if it was not.
    fn taken(self) -> Status
        ensures taken { is_taken result ≡ true }
        ensures unsent { is_unsent result ≡ is_unsent self }
    {
        match self {
            Status::Unsent => Status::Unsent,
            _ => Status::Settled,
        }
    }

    // Nothing left to send.
    fn sent(self) -> Status
        ensures taken { is_taken result ≡ is_taken self }
        ensures unsent { is_unsent result ≡ false }
    {
        match self {
            Status::Absent => Status::Absent,
            _ => Status::Settled,
        }
    }
}

// A stamp that a page holds, with the insertion under it, if one was taken, and whether it is struck.
// Place and entry are no Option: a slot is always written whole, and without an insertion it has the kind's filler, on the ground.
// That it has, is promised by each function that makes a slot. As a condition of the type it would give each definition over slots the members of both kinds as arguments.
#[derive(Clone, Copy)]
pub struct Slot<S, E> {
    stamp: S,
    place: Place<S>,
    entry: E,
    insertion: Status,
    deletion: Status,
}

impl<S: Stamp, E: Entry> Slot<S, E> {
    // A slot to make a table of: it holds nothing.
    pub fn empty() -> Slot<S, E>
        ensures row { row_in S.WordForm.values E.WordForm.values result ≡ blank (S.Stamp.kind.stamped 1 S.Stamp.kind.last) }
        ensures fills { Fills E.WordForm.values E.Entry.kind.filler result }
    {
        let site = Site::new(1).unwrap();
        Slot::nothing(S::new(site, S::last()).unwrap())
    }

    // A slot that holds nothing yet under the stamp.
    fn nothing(stamp: S) -> Slot<S, E>
        ensures row { row_in S.WordForm.values E.WordForm.values result ≡ blank (S.WordForm.values stamp) }
        ensures fills { Fills E.WordForm.values E.Entry.kind.filler result }
    {
        Slot {
            stamp,
            place: Place::Ground,
            entry: E::filler(),
            insertion: Status::Absent,
            deletion: Status::Absent,
        }
    }

    // The slot of a message under a stamp that was not held.
    pub fn received(message: &Message<S, E>) -> Slot<S, E>
        ensures row { row_in S.WordForm.values E.WordForm.values result ≡ merge (said S.WordForm.values E.WordForm.values message.now) (blank (stamp_of (said S.WordForm.values E.WordForm.values message.now))) }
        ensures fills { Fills E.WordForm.values E.Entry.kind.filler result }
    {
        Slot::nothing(message.stamp()).with(message)
    }

    // The slot of an insertion that is made here.
    pub fn made(stamp: S, place: Place<S>, entry: E) -> Slot<S, E>
        ensures row { row_in S.WordForm.values E.WordForm.values result ≡ made_row (S.WordForm.values stamp) (record { place = place_said S.WordForm.values place; entry = E.WordForm.values entry }) }
        ensures fills { Fills E.WordForm.values E.Entry.kind.filler result }
    {
        Slot {
            stamp,
            place,
            entry,
            insertion: Status::Unsent,
            deletion: Status::Absent,
        }
    }

    // The slot with a message under its stamp merged into it.
    pub fn with(&self, message: &Message<S, E>) -> Slot<S, E>
        ensures row { row_in S.WordForm.values E.WordForm.values result ≡ merge (said S.WordForm.values E.WordForm.values message.now) (row_in S.WordForm.values E.WordForm.values self.now) }
        ensures fills { Fills E.WordForm.values E.Entry.kind.filler self.now → Fills E.WordForm.values E.Entry.kind.filler result }
    {
        match *message {
            Message::Insertion { place, entry, .. } => Slot {
                place,
                entry,
                insertion: self.insertion.taken(),
                ..*self
            },
            Message::Deletion { .. } => Slot {
                deletion: self.deletion.taken(),
                ..*self
            },
        }
    }

    // The slot struck by a deletion that is made here.
    pub fn struck_here(&self) -> Slot<S, E>
        ensures row { row_in S.WordForm.values E.WordForm.values result ≡ struck_row (row_in S.WordForm.values E.WordForm.values self.now) }
        ensures fills { Fills E.WordForm.values E.Entry.kind.filler self.now → Fills E.WordForm.values E.Entry.kind.filler result }
    {
        Slot {
            deletion: Status::Unsent,
            ..*self
        }
    }

    // The slot with the mark of one of its messages cleared.
    pub fn sent(&self, operation: Operation) -> Slot<S, E>
        ensures row { row_in S.WordForm.values E.WordForm.values result ≡ sent_row operation (row_in S.WordForm.values E.WordForm.values self.now) }
        ensures fills { Fills E.WordForm.values E.Entry.kind.filler self.now → Fills E.WordForm.values E.Entry.kind.filler result }
    {
        match operation {
            Operation::Insert => Slot {
                insertion: self.insertion.sent(),
                ..*self
            },
            Operation::Delete => Slot {
                deletion: self.deletion.sent(),
                ..*self
            },
        }
    }

    pub fn stamp(&self) -> S
        ensures { S.WordForm.values result ≡ (row_in S.WordForm.values E.WordForm.values self.now).stamp }
    {
        self.stamp
    }

    // Has it an insertion?
    pub fn is_inserted(&self) -> bool
        ensures { result ≡ is_some (row_in S.WordForm.values E.WordForm.values self.now).node }
    {
        self.insertion.is_taken()
    }

    // Where its insertion hangs, if it has one.
    pub fn place(&self) -> Option<Place<S>>
        ensures { option_map (place_said S.WordForm.values) result ≡ place_in (row_in S.WordForm.values E.WordForm.values self.now) }
    {
        self.is_inserted().then_some(self.place)
    }

    // The entry that its insertion has, if it has one.
    pub fn entry(&self) -> Option<E>
        ensures { option_map E.WordForm.values result ≡ entry_in (row_in S.WordForm.values E.WordForm.values self.now) }
    {
        self.is_inserted().then_some(self.entry)
    }

    pub fn is_struck(&self) -> bool
        ensures { result ≡ (row_in S.WordForm.values E.WordForm.values self.now).struck }
    {
        self.deletion.is_taken()
    }

    // Is the message's insertion, or its deletion, held already?
    pub fn holds(&self, message: &Message<S, E>) -> bool
        ensures { result ≡ holds_in (row_in S.WordForm.values E.WordForm.values self.now) (said S.WordForm.values E.WordForm.values message.now) }
    {
        match message {
            Message::Insertion { .. } => self.insertion.is_taken(),
            Message::Deletion { .. } => self.deletion.is_taken(),
        }
    }

    // Is it free of any other insertion than the message's?
    pub fn admits(&self, message: &Message<S, E>) -> bool
        ensures { result ≡ no_other (row_in S.WordForm.values E.WordForm.values self.now).node (said S.WordForm.values E.WordForm.values message.now) }
    {
        match message {
            Message::Insertion { place, entry, .. } => !self.is_inserted()
                || (same_place(self.place, *place) && same_entry(&self.entry, entry)),
            Message::Deletion { .. } => true,
        }
    }

    // The message that was made here and not sent yet, if there is one for the operation.
    pub fn unsent(&self, operation: Operation) -> Option<Message<S, E>>
        ensures { option_map (said S.WordForm.values E.WordForm.values) result ≡ unsent_in operation (row_in S.WordForm.values E.WordForm.values self.now) }
    {
        let (status, message) = match operation {
            Operation::Insert => (
                self.insertion,
                Message::Insertion {
                    stamp: self.stamp,
                    place: self.place,
                    entry: self.entry,
                },
            ),
            Operation::Delete => (self.deletion, Message::Deletion { stamp: self.stamp }),
        };
        status.is_unsent().then_some(message)
    }

    // Which of its messages is to be sent next: its insertion before its deletion.
    pub fn next_unsent(&self) -> Option<Operation>
        ensures { result ≡ next_in (row_in S.WordForm.values E.WordForm.values self.now) }
    {
        if self.insertion.is_unsent() {
            Some(Operation::Insert)
        } else {
            self.deletion.is_unsent().then_some(Operation::Delete)
        }
    }
}

// Do they hang at the same place?
pub fn same_place<S: Stamp>(a: Place<S>, b: Place<S>) -> bool
    ensures { result ≡ same_place (place_said S.WordForm.values a) (place_said S.WordForm.values b) }
{
    match (a, b) {
        (Place::Ground, Place::Ground) => true,
        (
            Place::Under { side, parent },
            Place::Under {
                side: other,
                parent: p,
            },
        ) => side == other && parent.same(&p),
        _ => false,
    }
}

// Have they the same values? They are compared as written: a kind of entry need not have `==`.
pub fn same_entry<E: Entry>(a: &E, b: &E) -> bool
    ensures { result ≡ same_values (E.WordForm.values a.now) (E.WordForm.values b.now) }
{
    let mut left = [0u32; 16];
    let mut right = [0u32; 16];
    let _ = a.write(&mut left);
    let _ = b.write(&mut right);
    left == right
}
