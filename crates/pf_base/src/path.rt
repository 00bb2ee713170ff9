//! Paths of rulesets in the tree of anchors (pf.conf(5), Anchors).
ghost use Rattle.std.specs.Prelude.{◌≡◌, ◌↔◌, ℕ, List, [], ◌∷◌, ◌++◌, ◌<◌, true, false, length, nat_eq, take};
ghost use Rattle.std.proofs.Common.{rules};
ghost use Rattle.std.specs.Cmp.{partial_order_from_own_ties};
ghost use Rattle.std.specs.Cmp.Lexicographic.{lists_ties, pointwise, slice_cmp, texts_ties};
ghost use Rattle.std.specs.Cmp.Rules.{comparing};
ghost use Rattle.std.specs.Ordering.{nat_cmp, as_partial_cmp};
ghost use Rattle.pf_base.specs.Path.{IsPath, IsPathText, child_path, is_written_name, joined_path, path_text, read_path};

use crate::name::Name;
use crate::path_fault::PathFault;
use crate::path_text;
use std::cmp::Ordering;
use std::marker::Model;

/// The path of a ruleset: 0 to 8 names, none for the main ruleset. Clauses see the list of its
/// names, each the list of its bytes.
#[derive(Clone, Copy, Debug)]
pub struct Path {
    names: [Name; 8],
    count: u8,
}

impl Model for Path {
    ghost use Rattle.std.specs.Prelude.{List, ℕ, take, length};
    ghost use Rattle.std.specs.Coded.{coded_list, coded_ℕ};

    ghost Value = { List (List ℕ) };

    ghost coded = { coded_list (coded_list coded_ℕ) };

    ghost use Rattle.pf_base.specs.Padding.{padded};
    ghost use Rattle.pf_base.specs.PathKept.{no_name, IsKeptPath, path_back};

    ghost view = { λ a. take a.count a.names };

    ghost invariant = { IsKeptPath };

    ghost inverse = { λ names. record { names = padded no_name 8 names; count = length names } };

    ghost inverse_ok = { path_back };
}

// What stands in the places behind the names.
fn no_name() -> Name
    ensures { result ≡ 120 ∷ [] }
{
    match Name::new(b"x") {
        Some(name) => name,
        None => unreachable!(),
    }
}

impl Path {
    /// The most names of a path.
    pub const MOST: usize = 8;

    /// The path of the main ruleset, which has no name.
    pub fn main() -> Path
        ensures { result ≡ [] }
    {
        Path {
            names: [no_name(); 8],
            count: 0,
        }
    }

    /// The path of a text: `/` for the main ruleset, else names of letters, digits and `_-.:+@` with
    /// `/` between them, of which none begins with `_`. From left to right each name is tried for each
    /// `PathFault` in the order of its variants, and `TooDeep` comes after all names.
    pub fn parse(text: &[u8]) -> Result<Path, PathFault>
        ensures read { result ≡ read_path false text.now }
        ensures grammar { (names : List (List ℕ)) → (result ≡ Ok names) ↔ IsPathText false names text.now }
    {
        path_text::read(text, false)
    }

    /// The same, and names may begin with `_`.
    pub fn parse_any(text: &[u8]) -> Result<Path, PathFault>
        ensures read { result ≡ read_path true text.now }
        ensures grammar { (names : List (List ℕ)) → (result ≡ Ok names) ↔ IsPathText true names text.now }
    {
        path_text::read(text, true)
    }

    /// The names, from the main ruleset downwards. The text of the path is read back as it.
    pub fn names(&self) -> &[Name]
        ensures same { result.now ≡ self.now }
        ensures path { IsPath self.now }
        ensures read_back { read_path true (path_text self.now) ≡ Ok self.now }
    {
        &self.names[..self.count as usize]
    }

    // Adds a name that a path may have.
    pub(crate) fn push(&mut self, name: &Name)
        requires few { length self.old < 8 }
        requires named { is_written_name true name.now ≡ true }
        ensures { self.new ≡ self.old ++ name.now ∷ [] }
    {
        self.names[self.count as usize] = *name;
        self.count += 1;
    }

    // Adds the name where there is room.
    pub(crate) fn keep(&mut self, name: &Name)
        requires { is_written_name true name.now ≡ true }
        ensures { self.new ≡ take 8 (self.old ++ name.now ∷ []) }
    {
        if self.names().len() < Path::MOST {
            self.push(name);
        }
    }

    /// The path one name further down. None exactly where it would have more than 8 names, and for a name that
    /// no path can have: `.`, `..`, or one with a byte outside the form.
    #[tactic(auto, unfolding(crate::specs::Path::child_path))]
    pub fn child(&self, name: &Name) -> Option<Path>
        ensures { result ≡ child_path self.now name.now }
    {
        if self.names().len() == Path::MOST {
            return None;
        }
        if !path_text::is_path_name(name.bytes()) {
            return None;
        }
        let mut path = *self;
        path.push(name);
        Some(path)
    }

    /// The names of this path and then those of the one below it, or `TooDeep` with their number
    /// where that is over 8.
    #[tactic(auto, unfolding(crate::specs::Path::joined_path))]
    pub fn join(&self, below: &Path) -> Result<Path, PathFault>
        ensures { result ≡ joined_path self.now below.now }
    {
        let count = self.names().len() + below.names().len();
        if count > Path::MOST {
            return Err(PathFault::TooDeep(count as u64));
        }
        let mut path = *self;
        for name in below.names() {
            path.push(name);
        }
        Ok(path)
    }
}

impl PartialEq for Path {
    ghost eq = { pointwise (pointwise nat_eq) };

    ghost laws = { Prim.search (comparing, rules) };

    fn eq(&self, other: &Path) -> bool {
        self.names() == other.names()
    }
}

impl Eq for Path {
    ghost laws = { Prim.search (comparing, rules) };
}

impl Ord for Path {
    ghost cmp = { slice_cmp (slice_cmp nat_cmp) };

    ghost total = { Prim.search (comparing, rules) };

    ghost matches_partial_cmp = { Prim.search (comparing, rules) };

    ghost matches_eq = { lists_ties (slice_cmp nat_cmp) texts_ties };

    fn cmp(&self, other: &Path) -> Ordering {
        self.names().cmp(other.names())
    }
}

impl PartialOrd for Path {
    ghost partial_cmp = { as_partial_cmp (slice_cmp (slice_cmp nat_cmp)) };

    ghost laws = { partial_order_from_own_ties (Prim.search (comparing, rules)) (lists_ties (slice_cmp nat_cmp) texts_ties) };

    fn partial_cmp(&self, other: &Path) -> Option<Ordering> {
        Some(self.cmp(other))
    }
}
