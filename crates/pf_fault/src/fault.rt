//! Why a load goes no further, and which of several faults decides.
ghost use Rattle.std.specs.Prelude.{◌≡◌};
ghost use Rattle.pf_fault.specs.Order as says;
ghost use Rattle.pf_fault.specs.declared.fault.Stop.TheVariants.{NoMemory as no_memory};

use pf_base::{FaultKind, NoMemory, Place, Text};
use std::alloc::{AllocError, AllocFailed};

/// A fault and where it stands.
#[derive(Clone, Copy, Debug, PartialEq, Eq)]
pub struct Fault {
    pub kind: FaultKind,
    pub place: Place,
}

/// Why a load goes no further.
#[derive(Debug, Drop)]
pub enum Stop {
    /// A file has this fault.
    Fault(Fault),
    /// The file of this name is absent, or its read failed.
    Unread(Text),
    /// No memory was found.
    NoMemory,
}

impl From<NoMemory> for Stop {
    ghost from_gives = { λ _ stop. stop ≡ no_memory };

    fn from(_error: NoMemory) -> Stop {
        Stop::NoMemory
    }
}

impl From<AllocError> for Stop {
    ghost from_gives = { λ _ stop. stop ≡ no_memory };

    fn from(_error: AllocError) -> Stop {
        Stop::NoMemory
    }
}

impl<T: Drop> From<AllocFailed<T>> for Stop {
    ghost from_gives = { λ _ stop. stop ≡ no_memory };

    fn from(_error: AllocFailed<T>) -> Stop {
        Stop::NoMemory
    }
}

// The place of a kind in the order of all kinds.
#[tactic(auto, unfolding(crate::specs::Order::rank))]
fn rank(kind: &FaultKind) -> u8
    ensures { result ≡ says.rank kind.now }
{
    match kind {
        FaultKind::BadByte => 0,
        FaultKind::Unterminated => 1,
        FaultKind::MacroUndefined(_) => 2,
        FaultKind::MacroName => 3,
        FaultKind::IncludeDepth => 4,
        FaultKind::TooLarge => 5,
        FaultKind::Syntax => 6,
        FaultKind::Unsupported(_) => 7,
        FaultKind::StrayClose => 8,
        FaultKind::UnclosedBody => 9,
        FaultKind::NotInAnchor => 10,
        FaultKind::NotAnAddress(_) => 11,
        FaultKind::MaskTooLong(_) => 12,
        FaultKind::FamilyMismatch => 13,
        FaultKind::NoCombination => 14,
        FaultKind::UnknownInterface(_) => 15,
        FaultKind::UnknownService(_) => 16,
        FaultKind::UnknownProto(_) => 17,
        FaultKind::PortNeedsTcpUdp => 18,
        FaultKind::BadPort => 19,
        FaultKind::IcmpNeedsProto => 20,
        FaultKind::BadIcmpType => 21,
        FaultKind::BadFlags => 22,
        FaultKind::FlagsNeedTcp => 23,
        FaultKind::UnknownUser(_) => 24,
        FaultKind::RstNeedsTcp => 25,
        FaultKind::StateOptions => 26,
        FaultKind::AnchorEffect => 27,
        FaultKind::AnchorName => 28,
        FaultKind::TableTwice => 29,
        FaultKind::TableName => 30,
        FaultKind::TableConflict => 31,
        FaultKind::QueueTwice => 32,
        FaultKind::QueueParent => 33,
        FaultKind::QueueUnknown(_) => 34,
        FaultKind::TooManyRules(_) => 35,
    }
}

/// Of two faults of one statement the one that decides: that whose kind comes first in the order of [`FaultKind`], and of two of
/// one kind the first. Takes no memory.
pub fn first_of(one: Option<Fault>, other: Option<Fault>) -> Option<Fault>
    ensures { result ≡ says.first_of one other }
{
    match (one, other) {
        (None, other) => other,
        (Some(one), None) => Some(one),
        (Some(one), Some(other)) => {
            if rank(&other.kind) < rank(&one.kind) {
                Some(other)
            } else {
                Some(one)
            }
        }
    }
}
