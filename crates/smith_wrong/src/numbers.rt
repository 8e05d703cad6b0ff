ghost use Rattle.std.specs.Prelude.{◌≡◌, IfSome};
ghost use Rattle.smith_wrong.specs.Numbers.{bytes_number, family_number, family_numbered, item_number, numbered};

use crate::families::Family;
use smith_wrong_bytes::BytesFamily;
use smith_wrong_module::ModuleFamily;

impl Family {
    /// Returns the number of the family, from 1 on. Later versions append families and renumber none.
    pub fn number(self) -> u32
        ensures { result ≡ family_number self }
    {
        match self {
            Family::Module(family) => item_number(family),
            Family::Bytes(family) => bytes_number(family),
        }
    }

    /// Returns the family with the number `number`, if there is one.
    #[tactic(auto, unfolding(crate::specs::Numbers::family_numbered))]
    pub fn from_number(number: u32) -> Option<Family>
        ensures exact { result ≡ family_numbered number }
        ensures number { IfSome result (λ family. family_number family ≡ number) }
    {
        find_numbered(&Family::ALL, number)
    }
}

// Returns the first of `families` with the number `number`.
fn find_numbered(families: &[Family], number: u32) -> Option<Family>
    ensures exact { result ≡ numbered number families.now }
    ensures number { IfSome result (λ family. family_number family ≡ number) }
{
    for family in families {
        if family.number() == number {
            return Some(*family);
        }
    }
    None
}

fn item_number(family: ModuleFamily) -> u32
    ensures { result ≡ item_number family }
{
    family as u32
}

fn bytes_number(family: BytesFamily) -> u32
    ensures { result ≡ bytes_number family }
{
    family as u32
}
