// Where a new entry goes, and the counter of its stamp. Premises stand here as for the walks.
ghost use Rattle.std.specs.Prelude.{◌≡◌, true};
ghost use Rattle.std.specs.Option.{option_map, unwrap_or};
ghost use Rattle.messages.specs.Model.{place_said};
ghost use Rattle.ledger.specs.Calls.{greatest, place_after, place_at_top};
ghost use Rattle.ledger.specs.Ledger.{Apart};
ghost use Rattle.ledger.specs.Paths.{stands};
ghost use Rattle.slots.specs.Finding.{EntersAt, place_stands, stamps_of};
ghost use Rattle.slots.specs.Rows.{rows_in};

use crate::records::Slot;
use crate::walking::first_at;
use entries::Entry;
use messages::{Place, Side};
use stamps::{Counter, Stamp};

// The place before all that hangs at a place or below it: the place itself, or to the left of the first entry there. Struck entries count like others.
fn place_before<S: Stamp, E: Entry>(slots: &[Slot<S, E>], place: Place<S>) -> Place<S>
    ensures { let rows = rows_in S.WordForm.values E.WordForm.values slots.now in Apart rows → place_stands rows (place_said S.WordForm.values place) ≡ true → EntersAt rows S.Stamp.kind.earlier (place_said S.WordForm.values place) (place_said S.WordForm.values result) }
{
    match first_at(slots, place, None) {
        None => place,
        Some(parent) => Place::Under {
            side: Side::Left,
            parent,
        },
    }
}

// Right after an entry: its right child, or to the left of the first entry below its right children.
pub fn place_after<S: Stamp, E: Entry>(slots: &[Slot<S, E>], stamp: S) -> Place<S>
    ensures { let rows = rows_in S.WordForm.values E.WordForm.values slots.now in Apart rows → stands rows (S.WordForm.values stamp) ≡ true → place_said S.WordForm.values result ≡ place_after (stamps_of S.WordForm.form S.Stamp.kind) rows (S.WordForm.values stamp) }
{
    place_before(
        slots,
        Place::Under {
            side: Side::Right,
            parent: stamp,
        },
    )
}

// Before all that stands.
pub fn place_at_top<S: Stamp, E: Entry>(slots: &[Slot<S, E>]) -> Place<S>
    ensures { let rows = rows_in S.WordForm.values E.WordForm.values slots.now in Apart rows → place_said S.WordForm.values result ≡ place_at_top (stamps_of S.WordForm.form S.Stamp.kind) rows }
{
    place_before(slots, Place::Ground)
}

// The greatest counter of a site under which anything is held, if anything is.
pub fn greatest_counter<S: Stamp, E: Entry>(slots: &[Slot<S, E>], site: u32) -> Option<Counter>
    ensures value { unwrap_or (option_map (λ x. x.number) result) 0 ≡ greatest (stamps_of S.WordForm.form S.Stamp.kind) site (rows_in S.WordForm.values E.WordForm.values slots.now) }
{
    slots
        .iter()
        .filter(|slot| slot.stamp().site().get() == site)
        .map(|slot| slot.stamp().counter())
        .max()
}
