//! Why a statement has no form.
ghost use Rattle.std.specs.Prelude.{◌≡◌};

use pf_base::Name;

/// Why a statement is refused.
#[derive(Clone, Copy, Debug, PartialEq, Eq)]
pub enum FormFault {
    /// It is outside the grammar.
    Syntax,
    /// It is outside the grammar, and this is its first word of a part of pf.conf(5) that isn't supported.
    Unsupported(Name),
    /// A state clause where no state is made, an option of it twice, or options that exclude each other.
    StateOptions,
    /// A part that an anchor rule can't have.
    AnchorEffect,
    /// A letter that is no TCP flag.
    BadFlags,
    /// Memory ran out.
    NoMemory,
}

/// Why reading stops.
#[derive(Clone, Copy, Debug, PartialEq, Eq)]
pub enum Stop {
    /// The tokens are outside the grammar.
    Outside,
    /// Memory ran out.
    NoMemory,
}

impl From<pf_base::NoMemory> for Stop {
    ghost use Rattle.pf_syntax.specs.declared.fault.Stop.TheVariants.{NoMemory};

    ghost from_gives = { λ _ stop. stop ≡ NoMemory };

    fn from(_: pf_base::NoMemory) -> Stop {
        Stop::NoMemory
    }
}
