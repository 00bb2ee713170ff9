//! A plan while it is made (pfctl(8), -f).
ghost use Rattle.std.specs.Prelude.{◌≡◌, ◌++◌, ◌∷◌, [], ◌≤◌, IfOk, Some};
ghost use Rattle.pf_plan.specs.Drafts as says;

use crate::filled::FilledPaths;
use crate::plan::Part;
use pf_base::{List, Name, NoMemory, Path, Place, Text};
use pf_decl::{OptionLine, Queue, Setting, UsedQueue};
use pf_parts::{BlockKind, Queues};
use pf_rule::Rule;
use pf_shelf::TableDecl;
use std::alloc::Global;

/// The most rules that a ruleset keeps: one more than it may have, by which the end of its unit sees that it has too many.
const ROOM: usize = 16_385;

/// What `set block-policy` and `set state-policy` say at this place of a unit (pf.conf(5), OPTIONS).
#[derive(Clone, Copy, Debug, PartialEq, Eq)]
pub struct Policies {
    /// What a plain `block` does.
    pub block: BlockKind,
    /// States are bound to their interface.
    pub bound: bool,
}

/// A ruleset that is filled, and where it was begun.
#[derive(Debug, Drop)]
pub struct Ruleset {
    pub path: Path,
    /// The statement of its anchor, or line 0 of its unit's file.
    pub place: Place,
    pub rules: List<Rule>,
    pub tables: List<TableDecl>,
}

/// A ruleset that is being filled.
#[derive(Debug, Drop)]
pub struct Filling {
    pub own: Ruleset,
    /// Those of closed bodies in it, in the order in which they were begun.
    pub inside: List<Ruleset>,
    /// How many anchors without a name it has so far.
    pub nameless: u64,
}

/// A file that `load anchor` names, and the ruleset that it fills (pf.conf(5), ANCHORS).
#[derive(Debug, Drop)]
pub struct AnchorFile {
    pub path: Path,
    pub file: Text,
}

/// What the statements so far have put into a plan.
#[derive(Drop)]
pub struct Draft {
    /// The load is into the main ruleset.
    pub is_main: bool,
    /// The rulesets of units that were read to their ends.
    pub parts: List<Part>,
    /// The files of `load anchor` statements, in order: the further units of the load.
    pub loads: List<AnchorFile>,
    /// How many of them were begun.
    pub begun: u64,
    /// The rulesets that its bodies and its `load anchor` statements fill.
    pub filled: FilledPaths,
    /// The lines of all settings.
    pub options: List<OptionLine>,
    pub queues: List<Queue>,
    /// The queues that the unit's rules name, in a load into the main ruleset.
    pub used: List<UsedQueue>,
    pub policies: Policies,
    /// The ruleset to which the next rule goes.
    pub here: Filling,
    /// The rulesets around it, the innermost first: those whose anchors' bodies are open.
    pub outer: List<Filling>,
}

/// Both lists, one behind the other.
pub(crate) fn joined<T: Drop>(before: List<T>, more: List<T>) -> Result<List<T>, NoMemory>
    ensures { IfOk result (λ all. all ≡ before ++ more) }
{
    let mut items = before.into_items();
    let mut more = more.into_items();
    items.append(&mut more)?;
    Ok(List::of(items))
}

// The list with one item more.
pub(crate) fn joined_one<T: Drop>(before: List<T>, item: T) -> Result<List<T>, NoMemory>
    ensures { IfOk result (λ all. all ≡ before ++ item ∷ []) }
{
    let mut items = before;
    items.push(item)?;
    Ok(items)
}

impl Policies {
    /// At the start of a unit.
    pub const FIRST: Policies = Policies {
        block: BlockKind::Drop,
        bound: false,
    };
}

// The policies behind a setting.
fn policy_behind(policies: Policies, setting: &Setting) -> Policies
    ensures { result ≡ says.policy_behind policies setting.now }
{
    match setting {
        Setting::Block(kind) => Policies {
            block: *kind,
            bound: policies.bound,
        },
        Setting::Bound(bound) => Policies {
            block: policies.block,
            bound: *bound,
        },
        Setting::Skip(_) | Setting::Level(_) | Setting::Other => policies,
    }
}

// The policies behind lines of settings.
fn policies_behind(policies: Policies, lines: &[OptionLine]) -> Policies
    ensures { result ≡ says.policies_behind policies lines.now }
{
    let mut policies = policies;
    for line in lines {
        policies = policy_behind(policies, &line.setting);
    }
    policies
}

// The uses so far, and that of a second queue.
fn with_second(
    before: List<UsedQueue>,
    second: &Option<Name>,
    place: Place,
) -> Result<List<UsedQueue>, NoMemory>
    ensures { IfOk result (λ used. used ≡ before ++ says.second_use second.now place) }
{
    match second {
        None => Ok(before),
        Some(name) => {
            let used = joined_one(before, UsedQueue { name: *name, place })?;
            Ok(used)
        }
    }
}

// The uses so far, and those of the queues that a rule names.
fn with_both(
    before: List<UsedQueue>,
    queues: &Queues,
    place: Place,
) -> Result<List<UsedQueue>, NoMemory>
    ensures { IfOk result (λ used. used ≡ before ++ says.uses_at (Some queues.now) place) }
{
    let first = UsedQueue {
        name: queues.first,
        place,
    };
    let used = joined_one(before, first)?;
    let both = with_second(used, &queues.second, place)?;
    Ok(both)
}

// The uses so far, and those of a rule.
fn with_uses(
    is_main: bool,
    before: List<UsedQueue>,
    queues: &Option<Queues>,
    place: Place,
) -> Result<List<UsedQueue>, NoMemory>
    ensures { IfOk result (λ used. used ≡ before ++ says.uses_in is_main queues.now place) }
{
    match queues {
        Some(queues) if is_main => {
            let used = with_both(before, queues, place)?;
            Ok(used)
        }
        _ => Ok(before),
    }
}

// The ruleset with rules more.
fn with_more_rules(filling: Filling, rules: List<Rule>) -> Result<Filling, NoMemory>
    ensures { IfOk result (λ here. here ≡ record filling { own = says.more_rules filling.own rules }) }
{
    let Filling {
        own,
        inside,
        nameless,
    } = filling;
    let mut own = own;
    let all = joined(own.rules, rules)?;
    own.rules = all;
    Ok(Filling {
        own,
        inside,
        nameless,
    })
}

// The ruleset with one table more.
fn with_one_table(filling: Filling, table: TableDecl) -> Result<Filling, NoMemory>
    ensures { IfOk result (λ here. here ≡ record filling { own = says.more_tables filling.own table }) }
{
    let Filling {
        own,
        inside,
        nameless,
    } = filling;
    let mut own = own;
    let tables = joined_one(own.tables, table)?;
    own.tables = tables;
    Ok(Filling {
        own,
        inside,
        nameless,
    })
}

impl Draft {
    ghost use Rattle.std.specs.Prelude.{ℕ, ◌<◌};
    ghost use Rattle.pf_plan.specs.Numbered.{PlacesWithin};

    /// A load into the ruleset at this path, whose first unit is the file at this place. Takes no memory.
    pub fn begin(alloc: Global, path: Path, place: Place) -> Draft
        ensures begun { result ≡ says.begun_draft path place }
        ensures within { (count : ℕ) → place.file < count → PlacesWithin count result }
    {
        let is_main = path.names().is_empty();
        let own = Ruleset {
            path,
            place,
            rules: List::new(alloc),
            tables: List::new(alloc),
        };
        Draft {
            is_main,
            parts: List::new(alloc),
            loads: List::new(alloc),
            begun: 0,
            filled: FilledPaths::new(alloc),
            options: List::new(alloc),
            queues: List::new(alloc),
            used: List::new(alloc),
            policies: Policies::FIRST,
            here: Filling {
                own,
                inside: List::new(alloc),
                nameless: 0,
            },
            outer: List::new(alloc),
        }
    }

    /// Whether an anchor's body is open. Takes no memory.
    pub fn is_in_body(&self) -> bool
        ensures { result ≡ says.is_in_body self.now }
    {
        !self.outer.items().is_empty()
    }

    /// Whether the next statement stands in the main ruleset, in no body. Takes no memory.
    pub fn is_in_main(&self) -> bool
        ensures { result ≡ says.is_in_main self.now }
    {
        self.outer.items().is_empty() && self.here.own.path.names().is_empty()
    }

    /// How many rules its ruleset may be given, the last of them one too many. Takes no memory.
    pub fn room(&self) -> u32
        ensures value { result ≡ says.room_of self.now }
        ensures bound { result ≤ 16385 }
    {
        ROOM.saturating_sub(self.here.own.rules.items().len()) as u32
    }

    /// The draft with the rules of a statement at this place, which name these queues.
    pub fn with_rules(
        self,
        rules: List<Rule>,
        queues: &Option<Queues>,
        place: Place,
    ) -> Result<Draft, NoMemory>
        ensures laid { IfOk result (λ draft. draft ≡ says.with_rules self rules queues.now place) }
        ensures within { (count : ℕ) → PlacesWithin count self → place.file < count → IfOk result (PlacesWithin count) }
    {
        let mut draft = self;
        let used = with_uses(draft.is_main, draft.used, queues, place)?;
        let here = with_more_rules(draft.here, rules)?;
        draft.used = used;
        draft.here = here;
        Ok(draft)
    }

    /// The draft with one table more.
    pub fn with_table(self, table: TableDecl) -> Result<Draft, NoMemory>
        ensures laid { IfOk result (λ draft. draft ≡ says.with_table self table) }
        ensures within { (count : ℕ) → PlacesWithin count self → IfOk result (PlacesWithin count) }
    {
        let mut draft = self;
        let here = with_one_table(draft.here, table)?;
        draft.here = here;
        Ok(draft)
    }

    /// The draft with lines of settings more, which act from there on.
    pub fn with_lines(self, lines: List<OptionLine>) -> Result<Draft, NoMemory>
        ensures laid { IfOk result (λ draft. draft ≡ says.with_lines self lines) }
        ensures within { (count : ℕ) → PlacesWithin count self → IfOk result (PlacesWithin count) }
    {
        let mut draft = self;
        let policies = policies_behind(draft.policies, lines.items());
        let options = joined(draft.options, lines)?;
        draft.options = options;
        draft.policies = policies;
        Ok(draft)
    }

    /// The draft with one queue more.
    pub fn with_queue(self, queue: Queue) -> Result<Draft, NoMemory>
        ensures laid { IfOk result (λ draft. draft ≡ says.with_queue self queue) }
        ensures within { (count : ℕ) → PlacesWithin count self → queue.place.file < count → IfOk result (PlacesWithin count) }
    {
        let mut draft = self;
        let queues = joined_one(draft.queues, queue)?;
        draft.queues = queues;
        Ok(draft)
    }
}
