//! The rulesets that a load fills below the one that it is into.
ghost use Rattle.std.specs.Prelude.{◌≡◌, IfOk};
ghost use Rattle.std.specs.FinMap as finite;

use pf_base::{NoMemory, Path, path_map_laws};
use std::alloc::Global;
use std::collections::BTreeMap;
use std::marker::Model;

/// Paths of rulesets. Clauses see the finite set of them.
#[derive(Debug, Drop)]
pub struct FilledPaths {
    paths: BTreeMap<Path, ()>,
}

impl Model for FilledPaths {
    ghost use Rattle.pf_base.specs.OrderedMap.{map_of};
    ghost use Rattle.pf_plan.specs.Filled.{Paths, path_cmp, paths_code};

    ghost Value = { Paths };

    ghost coded = { paths_code };

    ghost view = { λ a. map_of path_cmp a.paths };
}

impl FilledPaths {
    /// No path. Takes no memory.
    pub fn new(alloc: Global) -> FilledPaths
        ensures { result ≡ finite.empty }
    {
        FilledPaths {
            paths: BTreeMap::new(alloc),
        }
    }

    /// Whether this path is among them. Takes no memory.
    pub fn has(&self, path: &Path) -> bool
        ensures { result ≡ finite.contains_key self.now path.now }
    {
        path_map_laws::<()>();
        self.paths.contains_key(path)
    }

    /// These paths and one more.
    pub fn with(self, path: Path) -> Result<FilledPaths, NoMemory>
        ensures { IfOk result (λ paths. paths ≡ finite.insert self path tt) }
    {
        path_map_laws::<()>();
        let mut all = self;
        all.paths.insert(path, ())?;
        Ok(all)
    }
}
