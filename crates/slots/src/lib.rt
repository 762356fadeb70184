// The slots that a page is kept in: one for each stamp held, and all that looks through them.
#![tactic(auto)]

pub mod entering;
pub mod records;
pub mod searching;
pub mod standing;
pub mod walking;

pub use entering::{greatest_counter, place_after, place_at_top};
pub use records::{Slot, Status};
pub use searching::{find, place_of, seek};
pub use standing::is_standing;
pub use walking::{first, following, least_child, leftmost};
