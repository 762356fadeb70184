// Whether an entry stands.
ghost use Rattle.std.specs.Prelude.{◌≡◌};
ghost use Rattle.ledger.specs.Paths.{stands};
ghost use Rattle.slots.specs.Rows.{rows_in};

use crate::records::Slot;
use crate::searching::place_of;
use entries::Entry;
use messages::Place;
use stamps::Stamp;

// Does the chain of parents, each inserted here, reach the ground? No chain is longer than there are slots.
pub fn is_standing<S: Stamp, E: Entry>(slots: &[Slot<S, E>], stamp: &S) -> bool
    ensures { result ≡ stands (rows_in S.WordForm.values E.WordForm.values slots.now) (S.WordForm.values stamp.now) }
{
    let mut at = *stamp;
    // So bounded, the loop ends on any table.
    for _ in slots {
        match place_of(slots, &at) {
            None => return false,
            Some(Place::Ground) => return true,
            Some(Place::Under { parent, .. }) => at = parent,
        }
    }
    false
}
