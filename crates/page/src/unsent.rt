// The next message to send.
ghost use Rattle.std.specs.Prelude.{◌≡◌, ◌<◌, length, IfSome};
ghost use Rattle.slots.specs.Rows.{rows_in};
ghost use Rattle.page.specs.Sending.{NextUnsent};

use entries::Entry;
use messages::Operation;
use slots::Slot;
use stamps::Stamp;

// A message that was made here and not sent yet: the index of its slot, and its operation.
#[derive(Clone, Copy)]
pub(crate) struct Unsent {
    pub(crate) at: usize,
    pub(crate) operation: Operation,
}

// The message of the lowest marked slot, its insertion before its deletion.
pub(crate) fn next_unsent<S: Stamp, E: Entry>(slots: &[Slot<S, E>]) -> Option<Unsent>
    ensures next { NextUnsent (rows_in S.WordForm.values E.WordForm.values slots.now) result }
    ensures within { IfSome result (λ u. u.at < length slots.now) }
{
    let at = slots.iter().position(|slot| slot.next_unsent().is_some())?;
    let operation = slots[at].next_unsent()?;
    Some(Unsent { at, operation })
}
