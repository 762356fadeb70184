// The entry that a call names.
ghost use Rattle.std.specs.Prelude.{◌≡◌, ◌<◌, [], ◌∷◌, length, is_some, IfOk, Some};
ghost use Rattle.words.specs.Answers.{answer, ask, told};
ghost use Rattle.ledger.specs.Ledger.{node_of};
ghost use Rattle.ledger.specs.Paths.{stands};
ghost use Rattle.slots.specs.Finding.{FirstWith};
ghost use Rattle.slots.specs.Rows.{rows_in};

use entries::Entry;
use slots::{Slot, is_standing, seek};
use stamps::Stamp;
use words::Refusal;

// The index of the slot of an entry that is inserted here and stands.
pub(crate) fn seek_standing<S: Stamp, E: Entry>(
    slots: &[Slot<S, E>],
    stamp: &S,
) -> Result<usize, Refusal>
    ensures answer { told {X = Unit {0}} (λ i. tt) result ≡ answer (ask 11 (is_some (node_of (S.WordForm.values stamp.now) (rows_in S.WordForm.values E.WordForm.values slots.now))) ∷ ask 12 (stands (rows_in S.WordForm.values E.WordForm.values slots.now) (S.WordForm.values stamp.now)) ∷ []) tt }
    ensures there { IfOk result (λ i. (i < length slots.now) × FirstWith (S.WordForm.values stamp.now) (rows_in S.WordForm.values E.WordForm.values slots.now) (Some i)) }
{
    let i = seek(slots, stamp).ok_or(Refusal::NotInserted)?;
    if !slots[i].is_inserted() {
        return Err(Refusal::NotInserted);
    }
    if !is_standing(slots, stamp) {
        return Err(Refusal::NotStanding);
    }
    Ok(i)
}
