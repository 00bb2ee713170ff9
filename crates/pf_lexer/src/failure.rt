//! A fault that ends a unit, twice: to be answered, and to be kept.
ghost use Rattle.std.specs.Prelude.{◌≡◌};
ghost use Rattle.pf_lexer.specs.declared.fault.LexFault.TheVariants.{NoMemory as no_memory};

use crate::fault::LexFault;
use pf_base::NoMemory;

/// A fault, twice: to be answered, and to be kept.
#[derive(Debug, Drop)]
pub struct Failure {
    pub fault: LexFault,
    pub kept: LexFault,
    ghost same: { kept ≡ fault },
}

impl From<NoMemory> for Failure {
    ghost from_gives = { λ _ failure. failure.fault ≡ no_memory };

    fn from(_error: NoMemory) -> Failure {
        Failure {
            fault: LexFault::NoMemory,
            kept: LexFault::NoMemory,
        }
    }
}
