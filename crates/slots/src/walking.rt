// From entry to entry by children, siblings and parents. No path is built.
// Any slots may be handed in. That each stamp has one slot, and that the entry stands, is a premise of what is promised and no condition of a type, which would ask it of every caller.
ghost use Rattle.std.specs.Prelude.{◌≡◌, true};
ghost use Rattle.std.specs.Option.{option_map};
ghost use Rattle.messages.specs.Model.{place_said};
ghost use Rattle.ledger.specs.Ledger.{Apart};
ghost use Rattle.ledger.specs.Paths.{stands};
ghost use Rattle.ledger.specs.Walk.{Climb, Leftmost, Onward, Starts};
ghost use Rattle.slots.specs.Finding.{FirstAtIs, LeastIs, earliest, fits_at, place_stands};
ghost use Rattle.slots.specs.Rows.{row_in, rows_in};

use crate::records::{Slot, same_place};
use crate::searching::place_of;
use entries::Entry;
use messages::{Place, Side};
use stamps::Stamp;

// Does its insertion hang at the place, and is it later than the bound, if one is given?
fn is_child<S: Stamp, E: Entry>(slot: &Slot<S, E>, place: Place<S>, after: Option<S>) -> bool
    ensures { result ≡ fits_at S.Stamp.kind.earlier (place_said S.WordForm.values place) (option_map S.WordForm.values after) (row_in S.WordForm.values E.WordForm.values slot.now) }
{
    slot.place().is_some_and(|own| same_place(own, place))
        && after.is_none_or(|bound| bound.earlier(&slot.stamp()))
}

// Of the entries that hang at the place and are later than the bound, if one is given: the one with the earliest stamp.
pub fn least_child<S: Stamp, E: Entry>(
    slots: &[Slot<S, E>],
    place: Place<S>,
    after: Option<S>,
) -> Option<S>
    ensures { let rows = rows_in S.WordForm.values E.WordForm.values slots.now in Apart rows → LeastIs rows S.Stamp.kind.earlier (place_said S.WordForm.values place) (option_map S.WordForm.values after) (option_map S.WordForm.values result) }
{
    slots
        .iter()
        .filter(|slot| is_child(slot, place, after))
        .fold(None, |best, slot| Some(earliest(best, slot.stamp())))
}

// The earlier of two stamps, where there are two.
fn earliest<S: Stamp>(best: Option<S>, stamp: S) -> S
    ensures { S.WordForm.values result ≡ earliest S.Stamp.kind.earlier (option_map S.WordForm.values best) (S.WordForm.values stamp) }
{
    match best {
        Some(other) if !stamp.earlier(&other) => other,
        _ => stamp,
    }
}

// The first entry in page order of those below an entry by way of left children, or the entry itself.
pub fn leftmost<S: Stamp, E: Entry>(slots: &[Slot<S, E>], from: S) -> S
    ensures { let rows = rows_in S.WordForm.values E.WordForm.values slots.now in Apart rows → stands rows (S.WordForm.values from) ≡ true → Leftmost rows S.Stamp.kind.earlier (S.WordForm.values from) (S.WordForm.values result) }
{
    let mut at = from;
    // No way down is longer than there are slots; so bounded, the loop ends on any table.
    for _ in slots {
        let left = Place::Under {
            side: Side::Left,
            parent: at,
        };
        let Some(child) = least_child(slots, left, None) else {
            return at;
        };
        at = child;
    }
    at
}

// The first entry in page order of those that hang at the place and are later than the bound, if one is given, and of all below these.
pub(crate) fn first_at<S: Stamp, E: Entry>(
    slots: &[Slot<S, E>],
    place: Place<S>,
    after: Option<S>,
) -> Option<S>
    ensures { let rows = rows_in S.WordForm.values E.WordForm.values slots.now in Apart rows → place_stands rows (place_said S.WordForm.values place) ≡ true → FirstAtIs rows S.Stamp.kind.earlier (place_said S.WordForm.values place) (option_map S.WordForm.values after) (option_map S.WordForm.values result) }
{
    let child = least_child(slots, place, after)?;
    Some(leftmost(slots, child))
}

// What comes after an entry and all that is below it.
fn climb<S: Stamp, E: Entry>(slots: &[Slot<S, E>], from: S) -> Option<S>
    ensures { let rows = rows_in S.WordForm.values E.WordForm.values slots.now in Apart rows → stands rows (S.WordForm.values from) ≡ true → Climb rows S.Stamp.kind.earlier (S.WordForm.values from) (option_map S.WordForm.values result) }
{
    let mut at = from;
    // No way up is longer than there are slots; so bounded, the loop ends on any table.
    for _ in slots {
        let place = place_of(slots, &at)?;
        if let Some(next) = first_at(slots, place, Some(at)) {
            return Some(next);
        }
        let Place::Under { side, parent } = place else {
            return None;
        };
        if side == Side::Left {
            return Some(parent);
        }
        at = parent;
    }
    None
}

// What comes after an entry in page order.
pub fn following<S: Stamp, E: Entry>(slots: &[Slot<S, E>], stamp: S) -> Option<S>
    ensures { let rows = rows_in S.WordForm.values E.WordForm.values slots.now in Apart rows → stands rows (S.WordForm.values stamp) ≡ true → Onward rows S.Stamp.kind.earlier (S.WordForm.values stamp) (option_map S.WordForm.values result) }
{
    let right = Place::Under {
        side: Side::Right,
        parent: stamp,
    };
    first_at(slots, right, None).or_else(|| climb(slots, stamp))
}

// The first entry in page order.
pub fn first<S: Stamp, E: Entry>(slots: &[Slot<S, E>]) -> Option<S>
    ensures { let rows = rows_in S.WordForm.values E.WordForm.values slots.now in Apart rows → Starts rows S.Stamp.kind.earlier (option_map S.WordForm.values result) }
{
    first_at(slots, Place::Ground, None)
}
