//! The two ends of a rule, and the prefix at one of them.
ghost use Rattle.std.specs.Prelude.{◌≡◌};
ghost use Rattle.pf_auto.specs.Ends.{prefix_at, prefix_of, test_at, with_test};

use pf_addr::Prefix;
use pf_rule::{AddrSet, AddrTest, Rule};

/// One of the two addresses of a rule.
#[derive(Clone, Copy, Debug, PartialEq, Eq)]
pub enum End {
    Source,
    Target,
}

/// The prefix of a rule's test at one end, where it is a prefix without `!`.
pub(crate) fn prefix_at(end: End, rule: &Rule) -> Option<Prefix>
    ensures { result ≡ prefix_at end rule.now }
{
    prefix_of(test_at(end, rule))
}

fn test_at(end: End, rule: &Rule) -> &AddrTest
    ensures { result.now ≡ test_at end rule.now }
{
    match end {
        End::Source => &rule.criteria.source,
        End::Target => &rule.criteria.target,
    }
}

fn prefix_of(test: &AddrTest) -> Option<Prefix>
    ensures { result ≡ prefix_of test.now }
{
    match test {
        AddrTest::Test {
            negated: false,
            what: AddrSet::Prefix(prefix),
        } => Some(*prefix),
        AddrTest::Any | AddrTest::Test { .. } => None,
    }
}

/// The rule with this test at one end.
pub(crate) fn with_test(end: End, test: AddrTest, rule: &Rule) -> Rule
    ensures { result ≡ with_test end test rule.now }
{
    let mut changed = *rule;
    match end {
        End::Source => changed.criteria.source = test,
        End::Target => changed.criteria.target = test,
    }
    changed
}
