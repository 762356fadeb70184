// Register entries, kind 2.
ghost use Rattle.std.specs.Prelude.{◌≡◌, ◌≤◌, true};
ghost use Rattle.entries.specs.Registers.{grave_fits};
ghost use Rattle.entries.specs.Surnames.{is_surname};

use crate::registers::surnames::Surname;
use crate::types::RegisterType;

mod forms;
mod parts;
mod surnames;

// An interment: its number, the grave if it has one, its type, and the surname.
#[derive(Clone, Copy, PartialEq, Eq, Debug)]
pub struct RegisterEntry {
    number: u32,
    grave: Option<u32>,
    kind: RegisterType,
    surname: Surname,
    ghost numbered: { (1 ≤ number) × (number ≤ 9999999) },
    ghost laid: { grave_fits grave ≡ true },
    ghost named: { is_surname surname ≡ true },
}
