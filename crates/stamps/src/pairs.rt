// Pair stamps, kind 1: counter, then site.
ghost use Rattle.stamps.specs.Pairs.{pair, pair_form, pair_kind};
ghost use Rattle.std.specs.Prelude.{◌≡◌, ◌^◌, ◌<◌, length, slice_index_or};
ghost use Rattle.std.proofs.Common.{sym, subst, arith, rules};
ghost use Rattle.std.proofs.lemmas.Bool.Decides.{nat_tests};
ghost use Rattle.words.specs.Forms.{Small};
ghost use Rattle.words.proofs.Shapes.{two, same_two};

use crate::kinds::{OrdStamp, Stamp};
use crate::numbers::{Counter, Site};
use words::{Refusal, WordForm, put_front};

#[derive(Clone, Copy, PartialEq, Eq, PartialOrd, Ord, Debug)]
pub struct PairStamp {
    counter: Counter,
    site: Site,
}

impl WordForm for PairStamp {
    ghost form = { pair_form };

    ghost values = { λ x. pair x.site.number x.counter.number };

    ghost numbered = { Prim.search rules };

    ghost written_reads = { Prim.search rules };

    ghost sized = { Prim.search rules };

    ghost small = { λ vs h.
        let l : length vs ≡ 2 = Prim.grind (arith, nat_tests) in
        let c : slice_index_or vs 0 0 < 2 ^ 28 = Prim.grind (arith, nat_tests) in
        let s : slice_index_or vs 1 0 < 2 ^ 28 = Prim.grind (arith, nat_tests) in
        subst Small (sym (two vs l)) (c, (s, tt)) };

    fn number() -> u8 {
        1
    }

    fn count() -> usize {
        2
    }

    fn read(vs: &[u32]) -> Option<PairStamp> {
        let [counter, site] = vs else {
            return None;
        };
        let counter = Counter::new(*counter)?;
        let site = Site::new(*site)?;
        Some(PairStamp { counter, site })
    }

    fn write(&self, space: &mut [u32]) -> Result<usize, Refusal> {
        put_front(&[self.counter.get(), self.site.get()], space)
    }
}

impl Stamp for PairStamp {
    ghost kind = { pair_kind };

    ghost few = { Prim.search rules };

    ghost connected = { λ v w rv rw' e f.
        let l : length v ≡ 2 = Prim.grind (arith, nat_tests) in
        let m : length w ≡ 2 = Prim.grind (arith, nat_tests) in
        let c : slice_index_or v 0 0 ≡ slice_index_or w 0 0 = Prim.grind (arith, nat_tests) in
        let s : slice_index_or v 1 0 ≡ slice_index_or w 1 0 = Prim.grind (arith, nat_tests) in
        same_two v w l m c s };

    ghost irreflexive = { Prim.search rules };

    ghost transitive = { Prim.search rules };

    fn last() -> Counter {
        Counter::LAST
    }

    fn new(site: Site, counter: Counter) -> Option<PairStamp> {
        Some(PairStamp { counter, site })
    }

    fn site(&self) -> Site {
        self.site
    }

    fn counter(&self) -> Counter {
        self.counter
    }

    fn same(&self, other: &PairStamp) -> bool {
        self == other
    }

    fn earlier(&self, other: &PairStamp) -> bool {
        self < other
    }
}

impl OrdStamp for PairStamp {
    ghost equal_values = { Prim.search rules };

    ghost same_stamp = { Prim.search rules };

    ghost ordered = { Prim.search rules };
}
