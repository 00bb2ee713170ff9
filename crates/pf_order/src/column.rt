//! The values of a field in a block.
ghost use Rattle.std.specs.Prelude.{◌<◌};

use indexmap::IndexSet;
use pf_rule::FieldValue;

// A skip field with its distinct values in a block, in the order of their first appearance.
#[derive(Drop)]
pub(crate) struct Column {
    pub(crate) field: u8,
    pub(crate) values: IndexSet<FieldValue>,
    ghost known: { field < 8 },
}
