//! The text of a state (pf.conf(5), STATEFUL FILTERING).
ghost use Rattle.std.specs.Prelude.{◌≡◌, ◌++◌, OnOk, map};
ghost use Rattle.std.specs.Option.{option_map};
ghost use Rattle.pf_parts.specs.Appending.{Extends};
ghost use Rattle.pf_parts.specs.Items.{part_of};
ghost use Rattle.pf_parts.specs.StateText.{kind_text, option_parts, overload_text, rate_text, state_text, track_text};

use crate::item::{Item, number_item, put_in_brackets, word_item};
use crate::state::{Overload, Rate, StateKind, StateOptions, Track};
use crate::text::put;
use pf_base::NoMemory;

fn kind_word(kind: StateKind) -> &'static [u8]
    ensures { result.now ≡ kind_text kind }
{
    match kind {
        StateKind::None => b"no state",
        StateKind::Keep => b"keep state",
        StateKind::Modulate => b"modulate state",
        StateKind::Synproxy => b"synproxy state",
    }
}

fn track_item(track: Option<Track>) -> Option<Item>
    ensures { part_of result ≡ option_map track_text track }
{
    match track? {
        Track::Plain => Some(Item::Word(b"source-track")),
        Track::Rule => Some(Item::Word(b"source-track rule")),
        Track::Global => Some(Item::Word(b"source-track global")),
    }
}

fn rate_item(rate: Option<Rate>) -> Option<Item>
    ensures { part_of result ≡ option_map rate_text rate }
{
    Some(Item::PerSeconds(rate?))
}

fn overload_item(overload: &Option<Overload>) -> Option<Item>
    ensures { part_of result ≡ option_map overload_text overload.now }
{
    match overload {
        Some(overload) => Some(Item::Table(*overload)),
        None => None,
    }
}

// The options in the order of the grammar, without `floating`.
#[tactic(auto, unfolding(crate::specs::StateText::option_parts))]
fn option_items(options: &StateOptions) -> [Option<Item>; 11]
    ensures { map part_of result ≡ option_parts options.now }
{
    [
        number_item(b"max", options.max),
        track_item(options.source_track),
        number_item(b"max-src-nodes", options.max_src_nodes),
        number_item(b"max-src-states", options.max_src_states),
        number_item(b"max-src-conn", options.max_src_conn),
        rate_item(options.max_src_conn_rate),
        overload_item(&options.overload),
        word_item(options.sloppy, b"sloppy"),
        word_item(options.no_sync, b"no-sync"),
        word_item(options.pflow, b"pflow"),
        word_item(options.if_bound, b"if-bound"),
    ]
}

/// Appends `no state`, `keep state`, `modulate state` or `synproxy state`, and behind these three the options in
/// brackets. Without memory a front of this may be appended.
#[tactic(auto, unfolding(crate::specs::StateText::state_text))]
pub fn put_state(out: &mut Vec<u8>, kind: StateKind, options: &StateOptions) -> Result<(), NoMemory>
    ensures ok { OnOk result (out.new.items ≡ out.old.items ++ state_text kind options.now) }
    ensures kept { Extends out.old.items out.new.items }
{
    put(out, kind_word(kind))?;
    if !matches!(kind, StateKind::None) {
        put_in_brackets(out, &option_items(options))?;
    }
    Ok(())
}
