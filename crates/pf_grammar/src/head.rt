//! The heads of rules, and the kinds of blocks (pf.conf(5), GRAMMAR).
ghost use Rattle.std.specs.Prelude.{◌≡◌};
ghost use Rattle.pf_grammar.specs.Heads.{anchor_head, block_kind, head_words, icmp6_kind, icmp_kind, is_anchor_name, kind_behind, reset_kind, second_code, words_behind_anchor};
ghost use Rattle.pf_syntax.specs.Fault.{is_one_of};
ghost use Rattle.pf_syntax.specs.Symbols.{next_is};
ghost use Rattle.pf_syntax.specs.Taking.{Takes};
ghost use Rattle.pf_syntax.specs.Words.{keyword, name};

use crate::keyword::{HeadWord, KindWord};
use pf_base::{List, Text};
use pf_form::Head;
use pf_parts::BlockKind;
use pf_syntax::keyword::{Key, is_at_key, take_key};
use pf_syntax::listed::{Listed, is_one_of};
use pf_syntax::{Cursor, Stop};

const HEAD_WORDS: [Key<HeadWord>; 6] = [
    Key(b"pass", HeadWord::Pass),
    Key(b"match", HeadWord::Match),
    Key(b"block", HeadWord::Block),
    Key(b"anchor", HeadWord::Anchor),
    Key(b"antispoof", HeadWord::Antispoof),
    Key(b"load", HeadWord::Load),
];

const KIND_WORDS: [Key<KindWord>; 5] = [
    Key(b"drop", KindWord::Drop),
    Key(b"return", KindWord::Return),
    Key(b"return-rst", KindWord::Reset),
    Key(b"return-icmp", KindWord::Icmp),
    Key(b"return-icmp6", KindWord::Icmp6),
];

/// Takes the first word of a statement.
#[tactic(auto, unfolding(crate::specs::Heads::head_words))]
pub fn take_head_word(cursor: &mut Cursor) -> Result<HeadWord, Stop>
    ensures { Takes (keyword head_words) cursor.old result cursor.new }
{
    take_key(&HEAD_WORDS, cursor)
}

// Takes the ttl of a reset, where one stands.
#[tactic(auto, unfolding(crate::specs::Heads::reset_kind))]
fn take_reset_kind(cursor: &mut Cursor) -> Result<BlockKind, Stop>
    ensures { Takes reset_kind cursor.old result cursor.new }
{
    if cursor.passes_sign(b"(") {
        cursor.take_keyword(b"ttl")?;
        let ttl = cursor.take_byte(0, 255)?;
        cursor.take_sign(b")")?;
        return Ok(BlockKind::Rst { ttl });
    }
    Ok(BlockKind::Rst { ttl: 0 })
}

// Takes what stands behind the first of two codes.
#[tactic(auto, unfolding(crate::specs::Heads::second_code))]
fn take_second_code(cursor: &mut Cursor, code: u8) -> Result<BlockKind, Stop>
    ensures { Takes (second_code code) cursor.old result cursor.new }
{
    if cursor.passes_sign(b")") {
        return Ok(BlockKind::Icmp { code, code6: 4 });
    }
    let _comma = cursor.passes_sign(b",");
    let code6 = cursor.take_byte(0, 255)?;
    cursor.take_sign(b")")?;
    Ok(BlockKind::Icmp { code, code6 })
}

// Takes the codes behind `return-icmp`, where they stand.
#[tactic(auto, unfolding(crate::specs::Heads::icmp_kind))]
fn take_icmp_kind(cursor: &mut Cursor) -> Result<BlockKind, Stop>
    ensures { Takes icmp_kind cursor.old result cursor.new }
{
    if cursor.passes_sign(b"(") {
        let code = cursor.take_byte(0, 255)?;
        return take_second_code(cursor, code);
    }
    Ok(BlockKind::Icmp { code: 3, code6: 4 })
}

// Takes the code behind `return-icmp6`, where it stands.
#[tactic(auto, unfolding(crate::specs::Heads::icmp6_kind))]
fn take_icmp6_kind(cursor: &mut Cursor) -> Result<BlockKind, Stop>
    ensures { Takes icmp6_kind cursor.old result cursor.new }
{
    if cursor.passes_sign(b"(") {
        let code6 = cursor.take_byte(0, 255)?;
        cursor.take_sign(b")")?;
        return Ok(BlockKind::Icmp { code: 3, code6 });
    }
    Ok(BlockKind::Icmp { code: 3, code6: 4 })
}

// Takes what stands behind the keyword of a kind.
fn take_kind_behind(cursor: &mut Cursor, word: KindWord) -> Result<BlockKind, Stop>
    ensures { Takes (kind_behind word) cursor.old result cursor.new }
{
    match word {
        KindWord::Drop => Ok(BlockKind::Drop),
        KindWord::Return => Ok(BlockKind::Return),
        KindWord::Reset => take_reset_kind(cursor),
        KindWord::Icmp => take_icmp_kind(cursor),
        KindWord::Icmp6 => take_icmp6_kind(cursor),
    }
}

/// Takes the kind of a block, where one is written.
#[tactic(auto, unfolding(crate::specs::Heads::block_kind, crate::specs::Heads::kind_words))]
pub fn take_block_kind(cursor: &mut Cursor) -> Result<Option<BlockKind>, Stop>
    ensures { Takes block_kind cursor.old result cursor.new }
{
    if !is_at_key(&KIND_WORDS, cursor) {
        return Ok(None);
    }
    let word = take_key(&KIND_WORDS, cursor)?;
    let kind = take_kind_behind(cursor, word)?;
    Ok(Some(kind))
}

// The words that end the bare name of an anchor.
const WORDS_BEHIND_ANCHOR: [Listed; 30] = [
    Listed(b"in"),
    Listed(b"out"),
    Listed(b"log"),
    Listed(b"quick"),
    Listed(b"on"),
    Listed(b"inet"),
    Listed(b"inet6"),
    Listed(b"proto"),
    Listed(b"all"),
    Listed(b"from"),
    Listed(b"to"),
    Listed(b"user"),
    Listed(b"group"),
    Listed(b"flags"),
    Listed(b"icmp-type"),
    Listed(b"icmp6-type"),
    Listed(b"tos"),
    Listed(b"prio"),
    Listed(b"tagged"),
    Listed(b"tag"),
    Listed(b"no"),
    Listed(b"keep"),
    Listed(b"modulate"),
    Listed(b"synproxy"),
    Listed(b"set"),
    Listed(b"scrub"),
    Listed(b"allow-opts"),
    Listed(b"label"),
    Listed(b"nat-to"),
    Listed(b"rdr-to"),
];

// Whether a word without quotes ends the bare name of an anchor.
#[tactic(auto, unfolding(crate::specs::Heads::words_behind_anchor))]
fn is_behind_anchor(word: &[u8]) -> bool
    ensures { result ≡ is_one_of words_behind_anchor word.now }
{
    is_one_of(&WORDS_BEHIND_ANCHOR, word)
}

// Whether the name of an anchor stands next: a string, or a word that doesn't end it.
fn is_at_anchor_name(cursor: &Cursor) -> bool
    ensures { result ≡ next_is is_anchor_name cursor.now }
{
    match cursor.next_word() {
        Some(word) => !is_behind_anchor(word),
        None => cursor.is_at_string(),
    }
}

/// Takes a name, as a text.
pub fn take_text(cursor: &mut Cursor) -> Result<Text, Stop>
    ensures { Takes name cursor.old result cursor.new }
{
    let alloc = cursor.alloc();
    let name = cursor.take_name()?;
    let text = List::copy_of(alloc, name.bytes())?;
    Ok(text)
}

/// Takes the name of an anchor, which may only be left out before a body.
#[tactic(auto, unfolding(crate::specs::Heads::anchor_head))]
pub fn take_anchor_head(cursor: &mut Cursor, body: bool) -> Result<Head, Stop>
    ensures { Takes (anchor_head body) cursor.old result cursor.new }
{
    if is_at_anchor_name(cursor) {
        let name = take_text(cursor)?;
        return Ok(Head::Anchor {
            name: Some(name),
            body,
        });
    }
    if !body {
        return Err(Stop::Outside);
    }
    Ok(Head::Anchor { name: None, body })
}
