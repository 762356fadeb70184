// The slot of a stamp.
ghost use Rattle.std.specs.Prelude.{◌≡◌, ◌<◌, true, false, length, IfNone, IfSome};
ghost use Rattle.std.specs.List.{AllWithin, HoldsAt};
ghost use Rattle.std.specs.Option.{option_map};
ghost use Rattle.words.specs.Forms.{same_values};
ghost use Rattle.messages.specs.Model.{place_said};
ghost use Rattle.ledger.specs.Ledger.{row_of};
ghost use Rattle.slots.specs.Finding.{FirstWith, place_under};
ghost use Rattle.slots.specs.Rows.{row_in, rows_in};

use crate::records::Slot;
use entries::Entry;
use messages::Place;
use stamps::Stamp;

// The index of the first slot that has the stamp, said of the slots themselves.
fn index_of<S: Stamp, E: Entry>(slots: &[Slot<S, E>], stamp: &S) -> Option<usize>
    ensures none { IfNone result (AllWithin (λ x. same_values (S.WordForm.values x.stamp) (S.WordForm.values stamp.now) ≡ false) slots.now 0 (length slots.now)) }
    ensures within { IfSome result (λ i. i < length slots.now) }
    ensures before { IfSome result (λ i. AllWithin (λ x. same_values (S.WordForm.values x.stamp) (S.WordForm.values stamp.now) ≡ false) slots.now 0 i) }
    ensures at { IfSome result (λ i. HoldsAt (λ x. same_values (S.WordForm.values x.stamp) (S.WordForm.values stamp.now) ≡ true) slots.now i) }
{
    slots.iter().position(|slot| slot.stamp().same(stamp))
}

// The index of the slot that has the stamp.
pub fn seek<S: Stamp, E: Entry>(slots: &[Slot<S, E>], stamp: &S) -> Option<usize>
    ensures first { FirstWith (S.WordForm.values stamp.now) (rows_in S.WordForm.values E.WordForm.values slots.now) result }
    ensures within { IfSome result (λ i. i < length slots.now) }
{
    index_of(slots, stamp)
}

// The slot that has the stamp.
#[tactic(auto, using(crate::proofs::Scans::slot_found))]
pub fn find<'t, S: Stamp, E: Entry>(slots: &'t [Slot<S, E>], stamp: &S) -> Option<&'t Slot<S, E>>
    ensures { option_map (λ x. row_in S.WordForm.values E.WordForm.values x.now) result ≡ row_of (S.WordForm.values stamp.now) (rows_in S.WordForm.values E.WordForm.values slots.now) }
{
    let i = seek(slots, stamp)?;
    Some(&slots[i])
}

// Where the insertion under the stamp hangs, if there is one.
pub fn place_of<S: Stamp, E: Entry>(slots: &[Slot<S, E>], stamp: &S) -> Option<Place<S>>
    ensures { option_map (place_said S.WordForm.values) result ≡ place_under (S.WordForm.values stamp.now) (rows_in S.WordForm.values E.WordForm.values slots.now) }
{
    find(slots, stamp)?.place()
}
