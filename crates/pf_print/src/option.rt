//! The line of a setting (pf.conf(5), OPTIONS).
ghost use Rattle.std.specs.Prelude.{◌≡◌, ◌++◌, OnErr, OnOk};

use pf_base::NoMemory;
use pf_decl::OptionLine;

/// Appends the line of a setting: `set`, the setting and its one member. Without memory `out` is as before (pf.conf(5),
/// OPTIONS).
pub fn put_option(out: &mut Vec<u8>, line: &OptionLine) -> Result<(), NoMemory>
    ensures ok { OnOk result (out.new.items ≡ out.old.items ++ line.now.text) }
    ensures err { OnErr result (out.new.items ≡ out.old.items) }
{
    out.extend_from_slice(line.text.items())?;
    Ok(())
}
