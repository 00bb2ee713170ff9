//! What the words say.

/// The words of a load (pfctl(8), -f): its file, and the values of the options beside it, as they were written. Each
/// has one or more bytes of 33 to 126.
#[derive(Clone, Copy, Debug)]
pub struct LoadWords<'a> {
    /// -f: the file of rules.
    pub file: &'a str,
    /// -H: the file of host facts.
    pub hosts: Option<&'a str>,
    /// -o: the level of optimisation.
    pub level: Option<&'a str>,
    /// -a: the path of the ruleset.
    pub path: Option<&'a str>,
    /// -P: the file of the profile.
    pub profile: Option<&'a str>,
    /// -D: the definition of a macro.
    pub define: Option<&'a str>,
}

/// What the program is to do.
#[derive(Clone, Copy, Debug)]
pub enum Said<'a> {
    /// -f: load, and answer the input's records.
    Load(LoadWords<'a>),
    /// -S: execute the input's lines.
    Script,
    /// -g: run what is generated from this number, 1 to 1000.
    Generate(u32),
}

/// Why the words aren't read.
#[derive(Clone, Copy, Debug, PartialEq, Eq)]
pub enum WordsFault {
    /// They aren't those of the program.
    Words,
    /// No memory was found.
    NoMemory,
}
