//! Combinations of lists.
use pf_addr::{Addr, Prefix};
use pf_base::{Family, List};
use pf_combine::{Member, combinations};
use pf_parts::{IfTest, TagTest};
use pf_rule::{AddrSet, AddrTest, Criteria};
use std::test::Fail;

const START: Criteria = Criteria {
    iface: IfTest::Any,
    direction: None,
    family: None,
    proto: None,
    source: AddrTest::Any,
    source_port: None,
    target: AddrTest::Any,
    target_port: None,
    user: None,
    group: None,
    flags: None,
    icmp: None,
    tos: None,
    prio: None,
    tagged: TagTest::Any,
};

fn not_from(addr: Addr) -> Member {
    Member::Source(AddrTest::Test {
        negated: true,
        what: AddrSet::Prefix(Prefix::of(&addr)),
    })
}

// `proto { tcp udp } from { ! 192.0.2.1 ! ::1 }`: four for any family, two for `inet6`.
#[test]
fn negated_members_combine(rt: HostRuntime) -> Result<(), Fail> {
    let alloc = rt.alloc();
    let mut protos = List::one_copy(alloc, &Member::Proto(6))?;
    protos.push_copy(&Member::Proto(17))?;
    let mut sources = List::one_copy(alloc, &not_from(Addr::V4(3221225985)))?;
    sources.push_copy(&not_from(Addr::V6(1)))?;
    let mut lists = List::new(alloc);
    lists.push(protos)?;
    lists.push(sources)?;
    for (families, wanted) in [([].as_slice(), 4), ([Family::Inet6].as_slice(), 2)] {
        let found = combinations(alloc, 10, families, &START, lists.items())?;
        assert_eq!(rt; found.items().len(), wanted);
    }
    Ok(())
}
