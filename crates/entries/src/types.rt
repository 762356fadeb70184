// The types of interment that a register knows.
ghost use Rattle.std.specs.Prelude.{◌≡◌, [], ◌∷◌, Some};
ghost use Rattle.entries.specs.Registers.{type_number, type_letter, TypeNumbered};

use std::fmt;
use words::UnknownNumber;

// Each type with its number in the values of an entry.
#[derive(Clone, Copy, PartialEq, Eq, Debug)]
pub enum RegisterType {
    Burial = 1,
    Cremation = 2,
    Scattering = 3,
}

impl RegisterType {
    // The letter that it is printed as.
    pub fn letter(self) -> u8
        ensures { result ≡ type_letter (type_number self) }
    {
        match self {
            RegisterType::Burial => b'B',
            RegisterType::Cremation => b'C',
            RegisterType::Scattering => b'S',
        }
    }
}

impl From<RegisterType> for u8 {
    ghost from_gives = { λ kind n. n ≡ type_number kind };

    fn from(kind: RegisterType) -> u8 {
        kind as u8
    }
}

impl TryFrom<u32> for RegisterType {
    type Error = UnknownNumber;

    ghost try_from_gives = { TypeNumbered };

    fn try_from(n: u32) -> Result<RegisterType, UnknownNumber> {
        match n {
            1 => Ok(RegisterType::Burial),
            2 => Ok(RegisterType::Cremation),
            3 => Ok(RegisterType::Scattering),
            _ => Err(UnknownNumber(n)),
        }
    }
}

impl fmt::Display for RegisterType {
    ghost output = { λ kind. Some (type_letter (type_number kind) ∷ []) };

    fn fmt<W: fmt::Write>(&self, f: &mut fmt::Formatter<W>) -> fmt::Result {
        f.write_char(char::from(self.letter()))
    }
}
