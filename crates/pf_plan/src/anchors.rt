//! What anchors do to a draft (pf.conf(5), ANCHORS).
ghost use Rattle.std.specs.Prelude.{◌≡◌, ◌<◌, ◌∷◌, [], ℕ, IfOk, MatchOption, None, Some, length};
ghost use Rattle.pf_plan.specs.Anchors as says;
ghost use Rattle.pf_plan.specs.Drafts as drafts;

use crate::draft::{AnchorFile, Draft, Filling, Policies, Ruleset, joined, joined_one};
use crate::end::parts_with;
use itoa::Buffer;
use pf_base::{List, Name, NoMemory, Path, Place, Text};
use std::alloc::Global;

// The name of the nth anchor without a name.
fn nameless_name(alloc: Global, number: u64) -> Result<Name, NoMemory>
    ensures { IfOk result (λ name. name ≡ says.nameless_name number) }
{
    let mut digits = Buffer::new();
    let mut text = Vec::new(alloc);
    text.push(b'_')?;
    text.extend_from_slice(digits.format(number).as_bytes())?;
    match Name::new(&text) {
        Some(name) => Ok(name),
        None => unreachable!(),
    }
}

/// The path, below its ruleset, of the nth anchor without a name, from 1: `_1`, `_2` and so on.
pub fn nameless_path(alloc: Global, number: u64) -> Result<Path, NoMemory>
    ensures { IfOk result (λ path. path ≡ says.nameless_name number ∷ []) }
{
    let name = nameless_name(alloc, number)?;
    match Path::main().child(&name) {
        Some(path) => Ok(path),
        None => unreachable!(),
    }
}

// A ruleset without rules, begun at this place.
fn begun_filling(alloc: Global, path: Path, place: Place) -> Filling
    ensures { result ≡ drafts.begun_filling path place }
{
    let own = Ruleset {
        path,
        place,
        rules: List::new(alloc),
        tables: List::new(alloc),
    };
    Filling {
        own,
        inside: List::new(alloc),
        nameless: 0,
    }
}

// One anchor without a name more, where it is one. More of them than a number counts have no memory either.
fn counted(filling: Filling, nameless: bool) -> Result<Filling, NoMemory>
    ensures { IfOk result (λ here. here ≡ says.counted filling nameless) }
{
    if !nameless {
        return Ok(filling);
    }
    let mut filling = filling;
    match filling.nameless.checked_add(1) {
        Some(count) => {
            filling.nameless = count;
            Ok(filling)
        }
        None => Err(NoMemory),
    }
}

// The rulesets with one in front.
fn with_first(filling: Filling, outer: List<Filling>) -> Result<List<Filling>, NoMemory>
    ensures { IfOk result (λ all. all ≡ filling ∷ outer) }
{
    let mut items = outer.into_items();
    items.insert(0, filling)?;
    Ok(List::of(items))
}

// A ruleset in which a body ended.
fn with_inside(filling: Filling, body: Filling) -> Result<Filling, NoMemory>
    ensures { IfOk result (λ all. all ≡ says.with_inside filling body) }
{
    let Filling {
        own,
        inside,
        nameless,
    } = filling;
    let Filling {
        own: ruleset,
        inside: more,
        nameless: _,
    } = body;
    let mut inside = inside;
    inside.push(ruleset)?;
    let inside = joined(inside, more)?;
    Ok(Filling {
        own,
        inside,
        nameless,
    })
}

impl Draft {
    ghost use Rattle.pf_plan.specs.Numbered.{PlacesWithin};

    /// Whether a body or a file of the load fills this ruleset. Takes no memory.
    pub fn is_filled(&self, path: &Path) -> bool
        ensures { result ≡ says.is_filled self.now path.now }
    {
        self.filled.has(path)
    }

    /// The draft where the body of an anchor at this place is open, which fills the ruleset at this path; `nameless` says that the
    /// anchor has no name.
    pub fn opened(
        self,
        alloc: Global,
        path: Path,
        place: Place,
        nameless: bool,
    ) -> Result<Draft, NoMemory>
        ensures laid { IfOk result (λ draft. draft ≡ says.opened self path place nameless) }
        ensures within { (count : ℕ) → PlacesWithin count self → place.file < count → IfOk result (PlacesWithin count) }
    {
        let mut draft = self;
        let around = counted(draft.here, nameless)?;
        let outer = with_first(around, draft.outer)?;
        let filled = draft.filled.with(path)?;
        draft.here = begun_filling(alloc, path, place);
        draft.outer = outer;
        draft.filled = filled;
        Ok(draft)
    }

    /// The draft where the innermost body is closed; without an open body it is the same.
    pub fn closed(self) -> Result<Draft, NoMemory>
        ensures laid { IfOk result (λ draft. draft ≡ says.closed self) }
        ensures within { (count : ℕ) → PlacesWithin count self → IfOk result (PlacesWithin count) }
    {
        if !self.is_in_body() {
            return Ok(self);
        }
        let mut draft = self;
        let mut outer = draft.outer.into_items();
        let filling = outer.remove(0);
        let here = with_inside(filling, draft.here)?;
        draft.here = here;
        draft.outer = List::of(outer);
        Ok(draft)
    }

    /// The draft with one file more, which fills the ruleset at this path once the units before it were read.
    pub fn with_load(self, path: Path, file: Text) -> Result<Draft, NoMemory>
        ensures laid { IfOk result (λ draft. draft ≡ says.with_load self path file) }
        ensures within { (count : ℕ) → PlacesWithin count self → IfOk result (PlacesWithin count) }
    {
        let mut draft = self;
        let filled = draft.filled.with(path)?;
        let loads = joined_one(draft.loads, AnchorFile { path, file })?;
        draft.loads = loads;
        draft.filled = filled;
        Ok(draft)
    }

    /// The file that comes next, where there is one. Takes no memory.
    pub fn next_load(&self) -> Option<&AnchorFile>
        ensures { MatchOption result (says.next_load self.now ≡ None) (λ file. says.next_load self.now ≡ Some file.now) }
    {
        self.loads.items().get(self.begun as usize)
    }

    /// The draft where the unit ended, and the next one begins at this place; it fills the ruleset at this path.
    pub fn next_unit(self, alloc: Global, path: Path, place: Place) -> Result<Draft, NoMemory>
        requires { self.begun < length self.loads }
        ensures laid { IfOk result (λ draft. draft ≡ says.next_unit self path place) }
        ensures within { (count : ℕ) → PlacesWithin count self → place.file < count → IfOk result (PlacesWithin count) }
    {
        let mut draft = self;
        let parts = parts_with(draft.parts, draft.here)?;
        draft.parts = parts;
        draft.begun += 1;
        draft.used = List::new(alloc);
        draft.policies = Policies::FIRST;
        draft.here = begun_filling(alloc, path, place);
        draft.outer = List::new(alloc);
        Ok(draft)
    }
}
