//! What a statement comes to (pf.conf(5), lists).
ghost use Rattle.std.specs.Prelude.{◌≡◌, take, IfOk};
ghost use Rattle.pf_word.specs.Coming.{Comes};
ghost use Rattle.pf_combine.specs.Combinations.{combined};
ghost use Rattle.pf_expand.specs.Expansion as says;
ghost use Rattle.pf_expand.specs.Expansion.{Expands, HasWords};
ghost use Rattle.pf_expand.specs.Lists.{is_empty};
ghost use Rattle.pf_expand.specs.Rules as rules;

use crate::faults::first_fault;
use crate::lists::{lists_of, written_families};
use crate::order::{Defaults, Order};
use crate::readings::{Readings, faults_of_words, read_words};
use crate::rules::{effect_of, rules_of, start_of};
use pf_base::{FaultKind, List, NoMemory};
use pf_combine::{antispoof_criteria, combinations};
use pf_form::{Head, RuleForm};
use pf_host::Facts;
use pf_parts::Call;
use pf_rule::{Criteria, Rule};
use pf_word::ExpandFault;
use std::alloc::Global;

// The first combinations of the lists of a form.
fn of_lists(
    alloc: Global,
    form: &RuleForm,
    room: usize,
    read: &Readings,
) -> Result<List<Criteria>, NoMemory>
    ensures { IfOk result (λ found. found ≡ take room (combined (says.written_families form.now read.now)
        (rules.start_of form.now) (says.lists_of form.now read.now))) }
{
    let families = written_families(alloc, form, read)?;
    let lists = lists_of(alloc, form, read)?;
    combinations(
        alloc,
        room,
        families.items(),
        &start_of(form),
        lists.items(),
    )
}

// The first criteria of the rules of a form.
fn criteria_of(
    alloc: Global,
    form: &RuleForm,
    room: usize,
    facts: &Facts,
    read: &Readings,
) -> Result<List<Criteria>, NoMemory>
    ensures { IfOk result (λ found. found ≡ take room (says.all_criteria facts.now form.now read.now form.now.head)) }
{
    match &form.head {
        Head::Antispoof => antispoof_criteria(
            alloc,
            room,
            facts,
            form.family,
            &start_of(form),
            form.ifaces.items(),
        ),
        Head::Pass | Head::Block(_) | Head::Match => of_lists(alloc, form, room, read),
        Head::Anchor { .. } => of_lists(alloc, form, room, read),
        Head::LoadAnchor { .. } => Ok(List::new(alloc)),
    }
}

fn makes_rules(head: &Head) -> bool
    ensures { result ≡ says.makes_rules head.now }
{
    match head {
        Head::Pass | Head::Block(_) | Head::Match => true,
        Head::Anchor { .. } | Head::Antispoof => true,
        Head::LoadAnchor { .. } => false,
    }
}

fn are_none(found: &[Criteria]) -> bool
    ensures { result ≡ is_empty found.now }
{
    found.is_empty()
}

// Whether the form makes rules, and none is left.
fn lacks_rules(
    alloc: Global,
    form: &RuleForm,
    facts: &Facts,
    read: &Readings,
) -> Result<bool, NoMemory>
    ensures { IfOk result (λ none. none ≡ says.lacks_rules facts.now form.now read.now) }
{
    let first = criteria_of(alloc, form, 1, facts, read)?;
    Ok(makes_rules(&form.head) && are_none(first.items()))
}

// The fault of a form whose words mean this.
fn fault_of(
    alloc: Global,
    form: &RuleForm,
    order: Order,
    facts: &Facts,
    read: &Readings,
) -> Result<Option<FaultKind>, NoMemory>
    ensures { IfOk result (λ fault. fault ≡ says.fault_of facts.now order form.now read.now) }
{
    let faults = faults_of_words(alloc, form, order, facts, read)?;
    let none = lacks_rules(alloc, form, facts, read)?;
    Ok(first_fault(form, read.protos.values.items(), faults.items(), none))
}

// The first rules of a form whose words mean this.
fn first_rules(
    alloc: Global,
    form: &RuleForm,
    call: &Call,
    facts: &Facts,
    defaults: &Defaults,
    room: u32,
    read: &Readings,
) -> Result<List<Rule>, NoMemory>
    ensures { IfOk result (λ rules. rules ≡ says.rules_of facts.now form.now call.now defaults.now room read.now) }
{
    let found = criteria_of(alloc, form, room as usize, facts, read)?;
    let effect = effect_of(
        form,
        call,
        defaults,
        read.nat.values.items(),
        read.rdr.values.items(),
    );
    rules_of(alloc, form, &effect, found.items())
}

// What a form comes to whose words mean this.
fn answer(
    alloc: Global,
    form: &RuleForm,
    call: &Call,
    order: Order,
    facts: &Facts,
    defaults: &Defaults,
    room: u32,
    read: &Readings,
) -> Result<List<Rule>, ExpandFault>
    ensures { Comes (λ answer. answer ≡ says.answer_with (says.fault_of facts.now order form.now read.now)
        (says.rules_of facts.now form.now call.now defaults.now room read.now)) result }
{
    match fault_of(alloc, form, order, facts, read)? {
        Some(fault) => Err(ExpandFault::Kind(fault)),
        None => {
            let rules = first_rules(alloc, form, call, facts, defaults, room, read)?;
            Ok(rules)
        }
    }
}

/// The first `room` rules of a form under the policies of the moment (pf.conf(5), lists, PARAMETERS, TRANSLATION): one for each
/// combination of members of its lists that names no two families; or, with its first word, the fault that stands first in
/// [`FaultKind`], `NoCombination` where none is left. `order` says which of two options of the statement stands first.
pub fn expand(
    alloc: Global,
    form: &RuleForm,
    call: &Call,
    order: Order,
    facts: &Facts,
    defaults: &Defaults,
    room: u32,
) -> Result<List<Rule>, ExpandFault>
    requires { HasWords form.now }
    ensures { Comes (Expands form.now call.now order facts.now defaults.now room) result }
{
    let read = read_words(alloc, form, facts)?;
    answer(alloc, form, call, order, facts, defaults, room, &read)
}
