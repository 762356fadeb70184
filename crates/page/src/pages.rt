// A page over lent slots.
ghost use Rattle.std.specs.Prelude.{◌≡◌, ◌<◌, ◌≤◌, true, length};
ghost use Rattle.stamps.specs.Kinds.{site_number};

use slots::Slot;

mod asking;
mod deferring;
mod deleting;
mod inserting;
mod opening;
mod receiving;
mod rendering;
mod sending;
mod table;

// One site's copy of a register page: the table that it is kept in, how many of its slots the page may use and how many are filled, and the site's number. A page opened in spite of a refusal may use none.
// The table is lent, so it is a slice with the number of filled slots beside it.
#[derive(Drop)]
pub struct Page<'a, S, E> {
    slots: &'a mut [Slot<S, E>],
    capacity: usize,
    filled: usize,
    // a number, and no `Site`: `site()` answers a number that is no site as well
    site: u32,
    ghost within: { capacity ≤ length slots.now },
    ghost room: { filled ≤ capacity },
    ghost few: { capacity ≤ 4096 },
    ghost sited: { (0 < capacity → site_number site ≡ true) },
}
