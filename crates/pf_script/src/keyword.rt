//! The keywords of script lines.
ghost use Rattle.std.specs.Prelude.{◌≡◌};
ghost use Rattle.pf_script.specs.Command as says;
ghost use Rattle.pf_script.specs.Options as opts;

// The first word of a line.
#[derive(Clone, Copy)]
pub(crate) enum Keyword {
    Load,
    Check,
    Open,
    Commit,
    Rollback,
    Flush,
    Table,
    Show,
    Hosts,
    Test,
}

// The word behind the name of a table.
#[derive(Clone, Copy)]
pub(crate) enum ActionWord {
    Add,
    Delete,
    Replace,
    Flush,
    Show,
    Test,
}

// The word behind `show`.
#[derive(Clone, Copy)]
pub(crate) enum ShowWord {
    Rules,
    Written,
    Tables,
    Anchors,
    Skips,
    Queues,
    Options,
}

// The first word of an option.
#[derive(Clone, Copy)]
pub(crate) enum Flag {
    Level,
    Path,
    Profile,
    Define,
}

// The keyword that a line begins with.
#[tactic(auto, unfolding(crate::specs::Command::keyword_of))]
pub(crate) fn keyword_of(word: &[u8]) -> Option<Keyword>
    ensures { result ≡ says.keyword_of word.now }
{
    if word == b"load".as_slice() {
        Some(Keyword::Load)
    } else if word == b"check".as_slice() {
        Some(Keyword::Check)
    } else if word == b"open".as_slice() {
        Some(Keyword::Open)
    } else if word == b"commit".as_slice() {
        Some(Keyword::Commit)
    } else if word == b"rollback".as_slice() {
        Some(Keyword::Rollback)
    } else if word == b"flush".as_slice() {
        Some(Keyword::Flush)
    } else if word == b"table".as_slice() {
        Some(Keyword::Table)
    } else if word == b"show".as_slice() {
        Some(Keyword::Show)
    } else if word == b"hosts".as_slice() {
        Some(Keyword::Hosts)
    } else if word == b"test".as_slice() {
        Some(Keyword::Test)
    } else {
        None
    }
}

// What is to be done with a table.
#[tactic(auto, unfolding(crate::specs::Command::action_word_of))]
pub(crate) fn action_word_of(word: &[u8]) -> Option<ActionWord>
    ensures { result ≡ says.action_word_of word.now }
{
    if word == b"add".as_slice() {
        Some(ActionWord::Add)
    } else if word == b"delete".as_slice() {
        Some(ActionWord::Delete)
    } else if word == b"replace".as_slice() {
        Some(ActionWord::Replace)
    } else if word == b"flush".as_slice() {
        Some(ActionWord::Flush)
    } else if word == b"show".as_slice() {
        Some(ActionWord::Show)
    } else if word == b"test".as_slice() {
        Some(ActionWord::Test)
    } else {
        None
    }
}

// What is to be shown.
#[tactic(auto, unfolding(crate::specs::Command::show_word_of))]
pub(crate) fn show_word_of(word: &[u8]) -> Option<ShowWord>
    ensures { result ≡ says.show_word_of word.now }
{
    if word == b"rules".as_slice() {
        Some(ShowWord::Rules)
    } else if word == b"written".as_slice() {
        Some(ShowWord::Written)
    } else if word == b"tables".as_slice() {
        Some(ShowWord::Tables)
    } else if word == b"anchors".as_slice() {
        Some(ShowWord::Anchors)
    } else if word == b"skips".as_slice() {
        Some(ShowWord::Skips)
    } else if word == b"queues".as_slice() {
        Some(ShowWord::Queues)
    } else if word == b"options".as_slice() {
        Some(ShowWord::Options)
    } else {
        None
    }
}

// The flag of an option.
#[tactic(auto, unfolding(crate::specs::Options::flag_of))]
pub(crate) fn flag_of(word: &[u8]) -> Option<Flag>
    ensures { result ≡ opts.flag_of word.now }
{
    if word == b"-o".as_slice() {
        Some(Flag::Level)
    } else if word == b"-a".as_slice() {
        Some(Flag::Path)
    } else if word == b"-P".as_slice() {
        Some(Flag::Profile)
    } else if word == b"-D".as_slice() {
        Some(Flag::Define)
    } else {
        None
    }
}
