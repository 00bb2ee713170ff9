//! The members of a statement's lists.
ghost use Rattle.std.specs.Prelude.{◌≡◌};
ghost use Rattle.pf_combine.specs.Members as says;

use pf_base::Family;
use pf_ops::{IcmpType, Op16, Op32};
use pf_parts::IfTest;
use pf_rule::{AddrSet, AddrTest, Criteria};

/// What one member of a list gives a rule.
#[derive(Clone, Copy, Debug)]
pub enum Member {
    Iface(IfTest),
    Proto(u8),
    Icmp(IcmpType),
    Source(AddrTest),
    SourcePort(Op16),
    Target(AddrTest),
    TargetPort(Op16),
    User(Op32),
    Group(Op32),
}

// The family of the addresses.
fn family_of_set(what: &AddrSet) -> Option<Family>
    ensures { result ≡ says.family_of_set what.now }
{
    match what {
        AddrSet::Prefix(prefix) => Some(prefix.family()),
        AddrSet::Range(range) => Some(range.family()),
        AddrSet::Table(_) | AddrSet::Dynamic(_) | AddrSet::Auto(_) => None,
    }
}

fn family_of_test(test: &AddrTest) -> Option<Family>
    ensures { result ≡ says.family_of_test test.now }
{
    match test {
        AddrTest::Any => None,
        AddrTest::Test { negated: _, what } => family_of_set(what),
    }
}

impl Member {
    // The family that it names.
    pub(crate) fn names(&self) -> Option<Family>
        ensures { result ≡ says.names self.now }
    {
        match self {
            Member::Icmp(icmp) => Some(icmp.family),
            Member::Source(test) => family_of_test(test),
            Member::Target(test) => family_of_test(test),
            Member::Iface(_) | Member::Proto(_) | Member::SourcePort(_) => None,
            Member::TargetPort(_) | Member::User(_) | Member::Group(_) => None,
        }
    }
}

// The criteria with this member.
pub(crate) fn with_member(start: &Criteria, member: &Member) -> Criteria
    ensures { result ≡ says.with_member start.now member.now }
{
    let mut criteria = *start;
    match member {
        Member::Iface(test) => criteria.iface = *test,
        Member::Proto(number) => criteria.proto = Some(*number),
        Member::Icmp(icmp) => criteria.icmp = Some(*icmp),
        Member::Source(test) => criteria.source = *test,
        Member::SourcePort(ports) => criteria.source_port = Some(*ports),
        Member::Target(test) => criteria.target = *test,
        Member::TargetPort(ports) => criteria.target_port = Some(*ports),
        Member::User(ids) => criteria.user = Some(*ids),
        Member::Group(ids) => criteria.group = Some(*ids),
    }
    criteria
}
