// What a register entry is made from, and what it is asked for.
ghost use Rattle.std.specs.Prelude.{◌≡◌, ◌≤◌, [], ◌∷◌, length};
ghost use Rattle.words.specs.Answers.{told, answer, ask};
ghost use Rattle.entries.specs.Held.{entry_values};
ghost use Rattle.entries.specs.Registers as spec;
ghost use Rattle.entries.specs.Surnames.{between};

use crate::registers::RegisterEntry;
use crate::registers::surnames::Surname;
use crate::types::RegisterType;
use words::Refusal;

// The numbers of interments and of graves.
fn number_fits(number: u32) -> bool
    ensures { result ≡ between 1 9999999 number }
{
    (1..=9_999_999).contains(&number)
}

// Does the interment have a number, and the grave one or none?
pub(super) fn numbers_fit(number: u32, grave: Option<u32>) -> bool
    ensures { result ≡ spec.numbers_fit number grave }
{
    number_fits(number) && grave.is_none_or(number_fits)
}

impl RegisterEntry {
    // The entry with these parts. What is out of range is refused.
    pub fn new(
        number: u32,
        grave: Option<u32>,
        kind: RegisterType,
        surname: &[u8],
    ) -> Result<RegisterEntry, Refusal>
        ensures { told entry_values result ≡ answer (ask 8 (spec.parts_fit number grave surname.now) ∷ []) (spec.register_values number grave kind surname.now) }
    {
        let refusal = Refusal::Entry { at: None };
        if !numbers_fit(number, grave) {
            return Err(refusal);
        }
        let surname = Surname::new(surname).ok_or(refusal)?;
        Ok(RegisterEntry {
            number,
            grave,
            kind,
            surname,
        })
    }

    pub fn number(&self) -> u32
        ensures { result ≡ spec.number_in (entry_values self.now) }
    {
        self.number
    }

    pub fn grave(&self) -> Option<u32>
        ensures { result ≡ spec.some_grave (spec.grave_in (entry_values self.now)) }
    {
        self.grave
    }

    pub fn kind(&self) -> RegisterType
        ensures { spec.type_number result ≡ spec.type_in (entry_values self.now) }
    {
        self.kind
    }

    #[tactic(auto, using(crate::specs::Reading::surname_back))]
    pub fn surname(&self) -> &[u8]
        ensures value { result.now ≡ spec.surname_in (entry_values self.now) }
        ensures short { length result.now ≤ 24 }
    {
        self.surname.as_bytes()
    }
}
