//! The lines that the words of a load give. Each replaces what the buffer held.
ghost use Rattle.std.specs.Prelude.{◌≡◌, ◌++◌, [], codes, OnOk};
ghost use Rattle.pf_words.specs.Said.{load_of, text_if};
ghost use Rattle.pfctl.specs.Lines.{load_line, option_text};

use pf_base::NoMemory;
use pf_words::LoadWords;

/// The line `hosts FACTS`.
pub fn put_hosts_line(line: &mut Vec<u8>, facts: &str) -> Result<(), NoMemory>
    ensures { OnOk result (line.new.items ≡ codes "hosts " ++ facts.now) }
{
    line.clear();
    line.extend_from_slice(b"hosts ")?;
    line.extend_from_slice(facts.as_bytes())?;
    Ok(())
}

// An option and its value, where one is given.
fn put_option(line: &mut Vec<u8>, flag: &[u8], value: Option<&str>) -> Result<(), NoMemory>
    ensures { OnOk result (line.new.items ≡ line.old.items ++ option_text flag.now (text_if value.entry)) }
{
    let Some(value) = value else {
        return Ok(());
    };
    line.extend_from_slice(flag)?;
    line.extend_from_slice(value.as_bytes())?;
    line.extend_from_slice(b" ")?;
    Ok(())
}

/// The line `load OPTS FILE`.
#[tactic(auto, unfolding(crate::specs::Lines::load_line))]
pub fn put_load_line(line: &mut Vec<u8>, words: LoadWords<'_>) -> Result<(), NoMemory>
    ensures { OnOk result (line.new.items ≡ load_line (load_of words.entry)) }
{
    line.clear();
    line.extend_from_slice(b"load ")?;
    put_option(line, b"-o ", words.level)?;
    put_option(line, b"-a ", words.path)?;
    put_option(line, b"-P ", words.profile)?;
    put_option(line, b"-D ", words.define)?;
    line.extend_from_slice(words.file.as_bytes())?;
    Ok(())
}
