// The two numbers of a stamp. Neither can stand in for the other, nor hold a number out of its range.
ghost use Rattle.std.specs.Prelude.{◌≡◌, true, if◌then◌else◌, Some, None};
ghost use Rattle.std.specs.Option.{option_map};
ghost use Rattle.stamps.specs.Kinds.{counter_to};

// A number from 1 to a last one.
#[derive(Clone, Copy, PartialEq, Eq, PartialOrd, Ord, Debug)]
pub struct UpTo<const LAST: u32> {
    number: u32,
    ghost ranged: { counter_to LAST number ≡ true },
}

// The number of a site.
pub type Site = UpTo<999>;

// The number of a message among those of its site. No kind of stamp has a greater one.
pub type Counter = UpTo<268_435_455>;

impl<const LAST: u32> UpTo<LAST> {
    pub fn new(number: u32) -> Option<UpTo<LAST>>
        ensures { option_map (λ x. x.number) result ≡ (if counter_to LAST number then Some number else None) }
    {
        if number < 1 || number > LAST {
            return None;
        }
        Some(UpTo { number })
    }

    pub fn get(self) -> u32
        ensures value { result ≡ self.entry.number }
        ensures ranged { counter_to LAST result ≡ true }
    {
        self.number
    }
}

impl Counter {
    // No kind of stamp has a greater one.
    pub const LAST: Counter = UpTo {
        number: 268_435_455,
    };

    // No ticket has a greater one.
    pub const LAST_TICKET: Counter = UpTo { number: 99_999 };
}
