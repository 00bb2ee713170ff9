//! The text of a kind of fault of a file.
ghost use Rattle.std.specs.Prelude.{◌≡◌, ◌++◌, OnOk, Some, decimal};
ghost use Rattle.pf_parts.specs.Appending.{Extends};
ghost use Rattle.pf_reply.specs.Kinds.{in_brackets, kind_name, kind_text};

use crate::text::put_count;
use pf_base::{FaultKind, NoMemory};
use pf_parts::put;

// The name of a kind of fault.
fn kind_name(kind: &FaultKind) -> &'static [u8]
    ensures { result.now ≡ kind_name kind.now }
{
    match kind {
        FaultKind::BadByte => b"BadByte",
        FaultKind::Unterminated => b"Unterminated",
        FaultKind::MacroUndefined(_) => b"MacroUndefined",
        FaultKind::MacroName => b"MacroName",
        FaultKind::IncludeDepth => b"IncludeDepth",
        FaultKind::TooLarge => b"TooLarge",
        FaultKind::Syntax => b"Syntax",
        FaultKind::Unsupported(_) => b"Unsupported",
        FaultKind::StrayClose => b"StrayClose",
        FaultKind::UnclosedBody => b"UnclosedBody",
        FaultKind::NotInAnchor => b"NotInAnchor",
        FaultKind::NotAnAddress(_) => b"NotAnAddress",
        FaultKind::MaskTooLong(_) => b"MaskTooLong",
        FaultKind::FamilyMismatch => b"FamilyMismatch",
        FaultKind::NoCombination => b"NoCombination",
        FaultKind::UnknownInterface(_) => b"UnknownInterface",
        FaultKind::UnknownService(_) => b"UnknownService",
        FaultKind::UnknownProto(_) => b"UnknownProto",
        FaultKind::PortNeedsTcpUdp => b"PortNeedsTcpUdp",
        FaultKind::BadPort => b"BadPort",
        FaultKind::IcmpNeedsProto => b"IcmpNeedsProto",
        FaultKind::BadIcmpType => b"BadIcmpType",
        FaultKind::BadFlags => b"BadFlags",
        FaultKind::FlagsNeedTcp => b"FlagsNeedTcp",
        FaultKind::UnknownUser(_) => b"UnknownUser",
        FaultKind::RstNeedsTcp => b"RstNeedsTcp",
        FaultKind::StateOptions => b"StateOptions",
        FaultKind::AnchorEffect => b"AnchorEffect",
        FaultKind::AnchorName => b"AnchorName",
        FaultKind::TableTwice => b"TableTwice",
        FaultKind::TableName => b"TableName",
        FaultKind::TableConflict => b"TableConflict",
        FaultKind::QueueTwice => b"QueueTwice",
        FaultKind::QueueParent => b"QueueParent",
        FaultKind::QueueUnknown(_) => b"QueueUnknown",
        FaultKind::TooManyRules(_) => b"TooManyRules",
    }
}

// Appends a text in brackets.
fn put_word(out: &mut Vec<u8>, word: &[u8]) -> Result<(), NoMemory>
    ensures ok { OnOk result (out.new.items ≡ out.old.items ++ in_brackets (Some word.now)) }
    ensures kept { Extends out.old.items out.new.items }
{
    put(out, b"(")?;
    put(out, word)?;
    put(out, b")")?;
    Ok(())
}

// Appends a number in brackets.
fn put_told(out: &mut Vec<u8>, number: u32) -> Result<(), NoMemory>
    ensures ok { OnOk result (out.new.items ≡ out.old.items ++ in_brackets (Some (decimal number))) }
    ensures kept { Extends out.old.items out.new.items }
{
    put(out, b"(")?;
    put_count(out, u64::from(number))?;
    put(out, b")")?;
    Ok(())
}

/// Appends a kind of fault: its name, and the word or number that it tells, in brackets.
pub fn put_kind(out: &mut Vec<u8>, kind: &FaultKind) -> Result<(), NoMemory>
    ensures ok { OnOk result (out.new.items ≡ out.old.items ++ kind_text kind.now) }
    ensures kept { Extends out.old.items out.new.items }
{
    put(out, kind_name(kind))?;
    match kind {
        FaultKind::MacroUndefined(word)
        | FaultKind::Unsupported(word)
        | FaultKind::NotAnAddress(word)
        | FaultKind::UnknownInterface(word)
        | FaultKind::UnknownService(word)
        | FaultKind::UnknownProto(word)
        | FaultKind::UnknownUser(word)
        | FaultKind::QueueUnknown(word) => put_word(out, word.bytes()),
        FaultKind::MaskTooLong(number) | FaultKind::TooManyRules(number) => put_told(out, *number),
        _ => Ok(()),
    }
}
