//! Rules, antispoof and load anchor (pf.conf(5), GRAMMAR).
ghost use Rattle.std.specs.Prelude.{◌≡◌, map, IfOk};
ghost use Rattle.pf_form.specs.Blank.{with_form};
ghost use Rattle.pf_grammar.specs.Options.{option};
ghost use Rattle.pf_grammar.specs.Statements.{anchor, anchor_statement, antispoof, block, label, load_anchor, names_for, on_interface, plain_statement, rule, rule_front, statement};
ghost use Rattle.pf_syntax.specs.Taking.{Takes};

use crate::head::{take_anchor_head, take_block_kind, take_head_word, take_text};
use crate::keyword::HeadWord;
use crate::option::take_option;
use pf_base::{Family, List, Name, NoMemory};
use pf_form::blank::blank;
use pf_form::hosts::{
    EachName, Hosts, take_direction, take_family, take_hosts, take_ifaces, take_protos,
};
use pf_form::log::{Logged, take_logged};
use pf_form::{Draft, Head};
use pf_parts::{Direction, IfTest};
use pf_syntax::list::{Lay, take_list};
use pf_syntax::row::take_to_end;
use pf_syntax::{Cursor, Stop};
use std::alloc::Global;

// Lays the parts in front of the options on a rule.
fn lay_front(
    draft: &mut Draft,
    direction: Option<Direction>,
    logged: Logged,
    ifaces: List<IfTest>,
    family: Option<Family>,
    protos: List<Name>,
    hosts: Hosts,
)
    ensures { draft.new ≡ with_form draft.old (record draft.old.form {
      direction = direction;
      quick = logged.quick;
      params = record draft.old.form.params { log = logged.log };
      ifaces = ifaces;
      family = family;
      protos = protos;
      sources = hosts.sources.hosts;
      source_ports = hosts.sources.ports;
      targets = hosts.targets.hosts;
      target_ports = hosts.targets.ports;
    }) }
{
    draft.form.direction = direction;
    draft.form.quick = logged.quick;
    draft.form.params.log = logged.log;
    draft.form.ifaces = ifaces;
    draft.form.family = family;
    draft.form.protos = protos;
    draft.form.sources = hosts.sources.hosts;
    draft.form.source_ports = hosts.sources.ports;
    draft.form.targets = hosts.targets.hosts;
    draft.form.target_ports = hosts.targets.ports;
}

// Takes the parts of a rule in front of its options.
#[tactic(auto, unfolding(crate::specs::Statements::rule_front))]
fn take_rule_front(cursor: &mut Cursor, head: Head) -> Result<Draft, Stop>
    ensures { Takes (rule_front head) cursor.old result cursor.new }
{
    let direction = take_direction(cursor)?;
    let logged = take_logged(cursor)?;
    let ifaces = take_ifaces(cursor)?;
    let family = take_family(cursor)?;
    let protos = take_protos(cursor)?;
    let hosts = take_hosts(cursor)?;
    let mut draft = blank(cursor.alloc(), head);
    lay_front(&mut draft, direction, logged, ifaces, family, protos, hosts);
    Ok(draft)
}

// The options of a rule.
#[derive(Clone, Copy)]
struct Options;

impl Lay<Draft> for Options {
    ghost part = { λ _. option };

    fn lay(&self, cursor: &mut Cursor, value: Draft) -> Result<Draft, Stop> {
        take_option(cursor, value)
    }
}

// Takes a rule behind its head.
#[tactic(auto, unfolding(crate::specs::Statements::rule))]
fn take_rule(cursor: &mut Cursor, head: Head) -> Result<Draft, Stop>
    ensures { Takes (rule head) cursor.old result cursor.new }
{
    let front = take_rule_front(cursor, head)?;
    take_to_end(&Options, cursor, front)
}

// Takes the label, where one is written.
#[tactic(auto, unfolding(crate::specs::Statements::label))]
fn take_label(cursor: &mut Cursor) -> Result<Option<Name>, Stop>
    ensures { Takes label cursor.old result cursor.new }
{
    if cursor.passes(b"label") {
        let name = cursor.take_name()?;
        return Ok(Some(name));
    }
    Ok(None)
}

// Tests of the interfaces of these names.
fn tests_of(alloc: Global, names: &[Name]) -> Result<List<IfTest>, NoMemory>
    ensures { IfOk result (λ tests. tests ≡ map on_interface names.now) }
{
    let mut tests = List::new(alloc);
    for name in names {
        let test = IfTest::On {
            name: *name,
            negated: false,
        };
        tests.push(test)?;
    }
    Ok(tests)
}

// Takes the names behind `for`, as interfaces.
fn take_names(cursor: &mut Cursor) -> Result<List<IfTest>, Stop>
    ensures { Takes names_for cursor.old result cursor.new }
{
    let names = take_list(&EachName, cursor)?;
    let tests = tests_of(cursor.alloc(), names.items())?;
    Ok(tests)
}

// Lays the parts of antispoof on it.
fn lay_antispoof(
    draft: &mut Draft,
    logged: Logged,
    ifaces: List<IfTest>,
    family: Option<Family>,
    label: Option<Name>,
)
    ensures { draft.new ≡ with_form draft.old (record draft.old.form {
      quick = logged.quick;
      params = record draft.old.form.params { log = logged.log };
      ifaces = ifaces;
      family = family;
      label = label;
    }) }
{
    draft.form.quick = logged.quick;
    draft.form.params.log = logged.log;
    draft.form.ifaces = ifaces;
    draft.form.family = family;
    draft.form.label = label;
}

// Takes antispoof behind its keyword.
#[tactic(auto, unfolding(crate::specs::Statements::antispoof))]
fn take_antispoof(cursor: &mut Cursor) -> Result<Draft, Stop>
    ensures { Takes antispoof cursor.old result cursor.new }
{
    let logged = take_logged(cursor)?;
    cursor.take_keyword(b"for")?;
    let ifaces = take_names(cursor)?;
    let family = take_family(cursor)?;
    let label = take_label(cursor)?;
    let mut draft = blank(cursor.alloc(), Head::Antispoof);
    lay_antispoof(&mut draft, logged, ifaces, family, label);
    Ok(draft)
}

// Takes load anchor behind its first word.
#[tactic(auto, unfolding(crate::specs::Statements::load_anchor))]
fn take_load_anchor(cursor: &mut Cursor) -> Result<Draft, Stop>
    ensures { Takes load_anchor cursor.old result cursor.new }
{
    cursor.take_keyword(b"anchor")?;
    let name = take_text(cursor)?;
    cursor.take_keyword(b"from")?;
    let file = take_text(cursor)?;
    Ok(blank(cursor.alloc(), Head::LoadAnchor { name, file }))
}

// Takes what stands behind the first word of a statement without a body.
fn take_plain_statement(cursor: &mut Cursor, word: HeadWord) -> Result<Draft, Stop>
    ensures { Takes (plain_statement word) cursor.old result cursor.new }
{
    match word {
        HeadWord::Pass => take_rule(cursor, Head::Pass),
        HeadWord::Match => take_rule(cursor, Head::Match),
        HeadWord::Block => take_block(cursor),
        HeadWord::Anchor => take_anchor(cursor, false),
        HeadWord::Antispoof => take_antispoof(cursor),
        HeadWord::Load => take_load_anchor(cursor),
    }
}

// Takes a block rule behind its first word.
#[tactic(auto, unfolding(crate::specs::Statements::block))]
fn take_block(cursor: &mut Cursor) -> Result<Draft, Stop>
    ensures { Takes block cursor.old result cursor.new }
{
    let kind = take_block_kind(cursor)?;
    take_rule(cursor, Head::Block(kind))
}

// Takes an anchor rule behind its first word.
#[tactic(auto, unfolding(crate::specs::Statements::anchor))]
fn take_anchor(cursor: &mut Cursor, body: bool) -> Result<Draft, Stop>
    ensures { Takes (anchor body) cursor.old result cursor.new }
{
    let head = take_anchor_head(cursor, body)?;
    take_rule(cursor, head)
}

/// Takes a statement, which has a body or not.
#[tactic(auto, unfolding(crate::specs::Statements::statement))]
pub fn take_statement(cursor: &mut Cursor, body: bool) -> Result<Draft, Stop>
    ensures { Takes (statement body) cursor.old result cursor.new }
{
    let word = take_head_word(cursor)?;
    if body {
        take_anchor_statement(cursor, word)
    } else {
        take_plain_statement(cursor, word)
    }
}

// Takes what stands behind the first word of a statement with a body, which only an anchor has.
fn take_anchor_statement(cursor: &mut Cursor, word: HeadWord) -> Result<Draft, Stop>
    ensures { Takes (anchor_statement word) cursor.old result cursor.new }
{
    if word == HeadWord::Anchor {
        take_anchor(cursor, true)
    } else {
        Err(Stop::Outside)
    }
}
