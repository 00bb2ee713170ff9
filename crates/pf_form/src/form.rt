//! The forms of rules, antispoof and load anchor (pf.conf(5), GRAMMAR).
use pf_base::{Family, List, Name, Text};
use pf_ops::TcpFlags;
use pf_parts::{BlockKind, Direction, IfTest, StateKind, StateOptions, TagTest};
use pf_rule::Params;
use pf_syntax::{HostItem, IcmpItem, OpItem, TargetWords};

/// What a rule, an antispoof or a load of an anchor says, before its words are given a meaning. A list that isn't
/// written is empty.
#[derive(Debug, Drop)]
pub struct RuleForm {
    pub head: Head,
    pub direction: Option<Direction>,
    pub quick: bool,
    pub family: Option<Family>,
    pub flags: Option<FlagsForm>,
    pub tos: Option<u8>,
    pub prio: Option<u8>,
    pub tagged: TagTest,
    pub tag: Option<Name>,
    pub state: Option<StateKind>,
    pub options: StateOptions,
    /// The log, the parts of `set`, `scrub` and `allow-opts`; a form's translations stand in `nat` and `rdr`.
    pub params: Params,
    pub label: Option<Name>,
    /// The interfaces of `on`, and those of `antispoof for`.
    pub ifaces: List<IfTest>,
    pub protos: List<Name>,
    pub icmp: List<IcmpItem>,
    pub sources: List<HostItem>,
    pub source_ports: List<OpItem>,
    pub targets: List<HostItem>,
    pub target_ports: List<OpItem>,
    pub users: List<OpItem>,
    pub groups: List<OpItem>,
    /// `nat-to`
    pub nat: Option<TargetWords>,
    /// `rdr-to`
    pub rdr: Option<TargetWords>,
}

/// How a statement begins.
#[derive(Debug, Drop)]
pub enum Head {
    Pass,
    /// `block`, with its kind where one is written.
    Block(Option<BlockKind>),
    Match,
    /// `anchor`: the name, where there is one, and whether a body follows.
    Anchor { name: Option<Text>, body: bool },
    /// `antispoof for`
    Antispoof,
    /// `load anchor name from file`
    LoadAnchor { name: Text, file: Text },
}

/// `flags`: `any`, or the flags that are set of those that are looked at. A letter that is no flag's has no bit.
#[derive(Clone, Copy, Debug, PartialEq, Eq)]
pub enum FlagsForm {
    Any,
    Test(TcpFlags),
}

/// A form, and what else a load must know of the statement.
#[derive(Debug, Drop)]
pub struct Draft {
    pub form: RuleForm,
    /// A letter behind `flags` is no flag's.
    pub unknown_flag: bool,
    /// An option of the state stands twice; the form has the first.
    pub repeated_option: bool,
    /// `group` stands before `user`.
    pub group_first: bool,
    /// `rdr-to` stands before `nat-to`.
    pub rdr_first: bool,
}
