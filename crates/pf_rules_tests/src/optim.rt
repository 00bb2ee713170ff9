ghost use Rattle.std.specs.Prelude.{◌≡◌, length, true, IfOk};
ghost use Rattle.pf_auto.specs.Standing.{names_none};
ghost use Rattle.pf_optim.specs.Meaning.{are_written};

use crate::plain::BLOCK_ALL;
use pf_addr::parse_prefix;
use pf_base::{Family, List, Name, NoMemory, Path};
use pf_optim::{Level, Node, ProfileFault, Ruleset, optimise, read_profile};
use pf_rule::{AddrSet, AddrTest, IfTest, Rule};
use pf_shelf::Shelf;
use pf_tree::Blank;
use std::alloc::Global;
use std::test::Fail;

// `block on IFACE inet from SOURCE`
fn block_on(iface: &str, source: &str) -> Rule
    ensures { names_none result ≡ true }
{
    let mut rule = BLOCK_ALL;
    rule.criteria.family = Some(Family::Inet);
    if let Some(name) = Name::new(iface.as_bytes()) {
        let negated = false;
        rule.criteria.iface = IfTest::On { name, negated };
    }
    if let Ok(prefix) = parse_prefix(source.as_bytes()) {
        let what = AddrSet::Prefix(prefix);
        let negated = false;
        rule.criteria.source = AddrTest::Test { negated, what };
    }
    rule
}

// Four rules of two interfaces and two sources, which are best sorted by interface.
fn four_rules(alloc: Global) -> Result<List<Rule>, NoMemory>
    ensures four { IfOk result (λ rules. length rules ≡ 4) }
    ensures written { IfOk result (λ rules. are_written rules ≡ true) }
{
    let mut rules = List::new(alloc);
    let four = [
        block_on("em0", "10.0.0.1"),
        block_on("em1", "10.0.0.2"),
        block_on("em0", "10.0.0.2"),
        block_on("em1", "10.0.0.1"),
    ];
    match rules.append_copy(&four) {
        Ok(()) => Ok(rules),
        Err(fault) => Err(fault),
    }
}

// The skips of the first rule.
fn first_skips(made: &Ruleset) -> [u32; 8] {
    let mut skips = [0; 8];
    if !made.fast().is_empty() {
        for field in 0..8u8 {
            skips[field as usize] = made.skip(0, field);
        }
    }
    skips
}

#[test]
fn basic_and_profile_sort_and_none_does_not(rt: HostRuntime) -> Result<(), Fail> {
    let alloc = rt.alloc();
    let basic = optimise(alloc, four_rules(alloc)?, Level::Basic, &[0, 0, 0, 0])?;
    let found = (basic.level(), basic.written().len(), basic.fast().len());
    assert_eq!(rt; found, (Level::Basic, 4, 4));
    assert!(rt; basic.automatic().is_empty());
    assert_eq!(rt; first_skips(&basic), [2, 4, 4, 4, 1, 4, 4, 4]);
    let profile = optimise(alloc, four_rules(alloc)?, Level::Profile, &[0, 9, 0, 0])?;
    assert_eq!(rt; first_skips(&profile), [2, 4, 4, 4, 1, 4, 4, 4]);
    let none = optimise(alloc, four_rules(alloc)?, Level::None, &[0, 0, 0, 0])?;
    assert_eq!(rt; first_skips(&none), [1, 4, 4, 4, 1, 4, 4, 4]);
    Ok(())
}

#[test]
fn nodes_with_rules_are_not_blank(rt: HostRuntime) -> Result<(), Fail> {
    let alloc = rt.alloc();
    let rules = optimise(alloc, four_rules(alloc)?, Level::None, &[0, 0, 0, 0])?;
    let shelf = Shelf::new(alloc);
    let mut node = Node { rules, shelf };
    assert!(rt; !node.is_blank());
    node.blank();
    assert!(rt; node.is_blank());
    assert!(rt; Node::fresh(alloc).is_blank());
    Ok(())
}

#[test]
fn profiles_have_weights(rt: HostRuntime) -> Result<(), Fail> {
    let text = b"# rows\na/_b 2 7\n\na 1 5\na/_b 1 0009\na/_b 4294967295 4294967295";
    let profile = read_profile(rt.alloc(), text).ok().ok_or("no profile")?;
    let path = Path::parse_any(b"a/_b").ok().ok_or("no path")?;
    let weights = profile.weights(rt.alloc(), &path, 3)?;
    assert_eq!(rt; weights.as_slice(), [9, 7, 0].as_slice());
    Ok(())
}

#[test]
fn profiles_have_first_faults(rt: HostRuntime) {
    for (text, line) in [
        (b"a 1 5\na 01 6\nb".as_slice(), 2),
        (b"\n#\na 0 5", 3),
        (b"a  1 5", 1),
        (b"a 1", 1),
        (b"a 1 5 ", 1),
        (b"a 4294967296 1", 1),
        (b"a 1 4294967296", 1),
        (b"a//b 1 1", 1),
        (b" # a 1 5", 1),
    ] {
        let fault = read_profile(rt.alloc(), text).err();
        assert_eq!(rt; fault, Some(ProfileFault::Line(line)));
    }
}
