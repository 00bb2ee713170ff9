//! What an ordered map is, seen as a finite map.
ghost use Rattle.std.specs.Cmp.Lexicographic.{slice_cmp};
ghost use Rattle.std.specs.Ordering.{nat_cmp};
ghost use Rattle.pf_base.specs.OrderedMap.{MapLaws};

/// A law: what the clauses of a map by name say of the finite map of its entries.
pub fn name_map_laws<V>()
    ensures { MapLaws (slice_cmp nat_cmp) V }
{}

/// The same law of a map by path.
pub fn path_map_laws<V>()
    ensures { MapLaws (slice_cmp (slice_cmp nat_cmp)) V }
{}
