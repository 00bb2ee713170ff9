//! Names of tables (pf.conf(5), TABLES).
ghost use Rattle.std.specs.Prelude.{◌≡◌};
ghost use Rattle.std.specs.List.{list_all};
ghost use Rattle.pf_word.specs.Tables as says;
ghost use Rattle.pf_word.specs.Tables.{is_table_byte};

use pf_base::Name;

// Whether all bytes may stand in the name of a table.
fn are_table_bytes(text: &[u8]) -> bool
    ensures { result ≡ list_all is_table_byte text.now }
{
    text.iter().all(|byte| byte.is_ascii_alphanumeric()
        || *byte == b'_'
        || *byte == b'-'
        || *byte == b'.')
}

/// Whether a table may have the name: at most 31 letters, digits and `_ - .`, which don't begin with `__automatic_`. The fault
/// of another is `TableName`. Takes no memory.
#[tactic(auto, unfolding(crate::specs::Tables::is_table_name))]
pub fn is_table_name(name: &Name) -> bool
    ensures { result ≡ says.is_table_name name.now }
{
    let bytes = name.bytes();
    bytes.len() <= 31 && are_table_bytes(bytes) && !bytes.starts_with(b"__automatic_")
}
