// Kinds of stamp.
ghost use Rattle.std.specs.Prelude.{◌≡◌, ◌≤◌, true, ◌&&◌, if◌then◌else◌, Some, None, ◌==◌, nat_le};
ghost use Rattle.std.specs.Option.{option_map};
ghost use Rattle.std.specs.Ordering.{is_lt};
ghost use Rattle.words.specs.Forms.{same_values};
ghost use Rattle.stamps.specs.Kinds.{StampKind, Connected, Irreflexive, Transitive, counter_to};

use crate::numbers::{Counter, Site};
use words::WordForm;

// A kind of stamp: 1 to 4 values that stand for a site and a counter, in a total order.
pub trait Stamp: WordForm {
    ghost kind: { StampKind };

    // The greatest counter that a stamp of this kind can have.
    fn last() -> Counter
        ensures { result.number ≡ kind.last };

    // The stamp of a site and a counter, for every counter up to the last.
    fn new(site: Site, counter: Counter) -> Option<Self>
        ensures stamp { option_map Self.WordForm.values result ≡ (if nat_le counter.number kind.last then Some (kind.stamped site.number counter.number) else None) }
        ensures site_back { option_map (λ x. kind.site (Self.WordForm.values x)) result ≡ (if nat_le counter.number kind.last then Some site.number else None) }
        ensures counter_back { option_map (λ x. kind.counter (Self.WordForm.values x)) result ≡ (if nat_le counter.number kind.last then Some counter.number else None) };

    // Each kind hands out its own field, which a body here could not name; so it is with the counter.
    fn site(&self) -> Site
        ensures { result.number ≡ kind.site (Self.WordForm.values self.now) };

    fn counter(&self) -> Counter
        ensures value { result.number ≡ kind.counter (Self.WordForm.values self.now) }
        ensures ranged { counter_to kind.last result.number ≡ true };

    // Are they the same stamp? They are where site and counter are the same.
    fn same(&self, other: &Self) -> bool
        ensures values { result ≡ same_values (Self.WordForm.values self.now) (Self.WordForm.values other.now) }
        ensures numbers { result ≡ (kind.site (Self.WordForm.values self.now) == kind.site (Self.WordForm.values other.now) && kind.counter (Self.WordForm.values self.now) == kind.counter (Self.WordForm.values other.now)) };

    fn earlier(&self, other: &Self) -> bool
        ensures { result ≡ kind.earlier (Self.WordForm.values self.now) (Self.WordForm.values other.now) };

    ghost few: { (1 ≤ Self.WordForm.form.count) × (Self.WordForm.form.count ≤ 4) };

    ghost connected: { Connected Self.WordForm.form.reads kind.earlier };

    ghost irreflexive: { Irreflexive Self.WordForm.form.reads kind.earlier };

    ghost transitive: { Transitive Self.WordForm.form.reads kind.earlier };
}

// A kind whose stamps are equal (`==`) and ordered (`<`) as the kind has it. No kind of stamp has to be one; the two of this repository are.
pub trait OrdStamp: Stamp + Ord {
    // stamps are equal where their values are
    ghost equal_values: { (x y : Self) → Self.eq x y ≡ same_values (Self.WordForm.values x) (Self.WordForm.values y) };

    // stamps of one site and one counter are the same stamp
    ghost same_stamp: { (x y : Self) → Self.eq x y ≡ (Self.Stamp.kind.site (Self.WordForm.values x) == Self.Stamp.kind.site (Self.WordForm.values y) && Self.Stamp.kind.counter (Self.WordForm.values x) == Self.Stamp.kind.counter (Self.WordForm.values y)) };

    // stamps are ordered as the kind orders their values
    ghost ordered: { (x y : Self) → is_lt (Self.cmp x y) ≡ Self.Stamp.kind.earlier (Self.WordForm.values x) (Self.WordForm.values y) };
}
