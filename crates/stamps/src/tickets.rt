// Ticket stamps, kind 2: one number, the site times 100,000 and the counter.
ghost use Rattle.std.specs.Prelude.{◌≡◌, ◌+◌, ◌*◌, ◌^◌, ◌<◌, ◌≤◌, length, slice_index_or};
ghost use Rattle.std.proofs.Common.{sym, subst, arith, rules};
ghost use Rattle.stamps.specs.Tickets.{ticket, last_ticket, ticket_form, ticket_kind};
ghost use Rattle.std.proofs.lemmas.Bool.Decides.{nat_tests};
ghost use Rattle.words.specs.Forms.{Small};
ghost use Rattle.words.proofs.Shapes.{one, same_one};

use crate::kinds::{OrdStamp, Stamp};
use crate::numbers::{Counter, Site};
use words::{Refusal, WordForm, put_front};

#[derive(Clone, Copy, PartialEq, Eq, PartialOrd, Ord, Debug)]
pub struct TicketStamp {
    site: Site,
    counter: Counter,
    ghost short: { counter.number ≤ last_ticket },
}

impl TicketStamp {
    // The one number that a ticket bears.
    fn ticket(&self) -> u32
        ensures { result ≡ self.now.site.number * 100000 + self.now.counter.number }
    {
        self.site.get() * 100_000 + self.counter.get()
    }
}

impl WordForm for TicketStamp {
    ghost form = { ticket_form };

    ghost values = { λ x. ticket x.site.number x.counter.number };

    ghost numbered = { Prim.search rules };

    ghost written_reads = { Prim.search rules };

    ghost sized = { Prim.search rules };

    ghost small = { λ vs h.
        let l : length vs ≡ 1 = Prim.grind (arith, nat_tests) in
        let v : slice_index_or vs 0 0 < 2 ^ 28 = Prim.grind (arith, nat_tests) in
        subst Small (sym (one vs l)) (v, tt) };

    fn number() -> u8 {
        2
    }

    fn count() -> usize {
        1
    }

    fn read(vs: &[u32]) -> Option<TicketStamp> {
        let [ticket] = vs else {
            return None;
        };
        let site = Site::new(*ticket / 100_000)?;
        let counter = Counter::new(*ticket % 100_000)?;
        <TicketStamp as Stamp>::new(site, counter)
    }

    fn write(&self, space: &mut [u32]) -> Result<usize, Refusal> {
        put_front(&[self.ticket()], space)
    }
}

impl Stamp for TicketStamp {
    ghost kind = { ticket_kind };

    ghost few = { Prim.search rules };

    ghost connected = { λ v w rv rw' e f.
        let l : length v ≡ 1 = Prim.grind (arith, nat_tests) in
        let m : length w ≡ 1 = Prim.grind (arith, nat_tests) in
        let t : slice_index_or v 0 0 ≡ slice_index_or w 0 0 = Prim.grind (arith, nat_tests) in
        same_one v w l m t };

    ghost irreflexive = { Prim.search rules };

    ghost transitive = { Prim.search rules };

    fn last() -> Counter {
        Counter::LAST_TICKET
    }

    fn new(site: Site, counter: Counter) -> Option<TicketStamp> {
        if counter.get() > 99_999 {
            return None;
        }
        Some(TicketStamp { site, counter })
    }

    fn site(&self) -> Site {
        self.site
    }

    fn counter(&self) -> Counter {
        self.counter
    }

    fn same(&self, other: &TicketStamp) -> bool {
        self == other
    }

    fn earlier(&self, other: &TicketStamp) -> bool {
        self < other
    }
}

impl OrdStamp for TicketStamp {
    ghost equal_values = { Prim.search rules };

    ghost same_stamp = { Prim.search rules };

    ghost ordered = { Prim.search rules };
}
