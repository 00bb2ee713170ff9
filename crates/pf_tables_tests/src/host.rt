use pf_addr::{DynIf, Ifaces, parse_addr};
use pf_base::Name;
use pf_host::{Facts, FactsCause, FactsFault, read_facts};
use std::alloc::Global;
use std::test::Fail;

const FACTS: &str = "# a host
interface em10 dmz

interface em1
address em10 10.1/8
address em1 10.0.0.2/31
address em10 10.0.0.3/32
host www 192.0.2.1
host www 2001:db8::1
user root 0
service http 65535
";

// A name, whether its networks are asked for, whether the first alone, and how many there are.
const COUNTS: [(&str, bool, bool, usize); 4] = [
    ("self", false, false, 3),
    ("em", true, true, 2),
    ("dmz", false, true, 1),
    ("lo", true, false, 0),
];

// A name, whether its networks are asked for, an address, and whether it is one of them.
const FOUND: [(&str, bool, &str, bool); 4] = [
    ("em1", false, "10.0.0.2", true),
    ("em1", false, "10.0.0.3", false),
    ("em1", true, "10.0.0.3", true),
    ("dmz", false, "10.1.0.0", true),
];

// A text, the number of its first line with a fault, and the fault.
const FAULTS: [(&str, u64, FactsCause); 6] = [
    ("interface em0\n\nrule em0", 3, FactsCause::BadLine),
    ("address em0 x\n", 1, FactsCause::Unknown),
    ("user a 1\nuser a x", 2, FactsCause::Twice),
    ("host www 10.0.0", 1, FactsCause::BadAddress),
    ("interface a\naddress a ::/129", 2, FactsCause::BadAddress),
    ("service a 65536", 1, FactsCause::BadNumber),
];

fn name(text: &str) -> Result<Name, Fail> {
    Ok(Name::new(text.as_bytes()).ok_or("no name")?)
}

fn facts_of(alloc: Global) -> Result<Facts, Fail> {
    Ok(read_facts(alloc, FACTS.as_bytes())?)
}

fn asked(text: &str, network: bool, first: bool) -> Result<DynIf, Fail> {
    let name = name(text)?;
    Ok(DynIf {
        name,
        network,
        first,
    })
}

// Whether each name has so many addresses.
fn counts_hold(alloc: Global, facts: &Facts) -> Result<bool, Fail> {
    for (word, network, first, count) in COUNTS {
        let found = facts.addresses(alloc, &asked(word, network, first)?)?;
        if found.items().len() != count {
            return Ok(false);
        }
    }
    let own = facts.own_addresses(alloc, &name("em10")?, true)?;
    Ok(own.items().len() == 2)
}

// Whether each address is found where it is to be.
fn addresses_hold(facts: &Facts) -> Result<bool, Fail> {
    for (word, network, addr, wanted) in FOUND {
        let addr = parse_addr(addr.as_bytes())?;
        if facts.dynamic(&asked(word, network, false)?, &addr) != wanted {
            return Ok(false);
        }
    }
    Ok(true)
}

// Whether names mean what they are to mean.
fn names_hold(facts: &Facts) -> Result<bool, Fail> {
    let em = name("em")?;
    let root = name("root")?;
    let http = name("http")?;
    Ok(
        Ifaces::in_group(facts, &em, &name("em10")?)
            && facts.knows(&em)
            && facts.has_host(&name("www")?)
            && facts.user(&root) == Some(0)
            && facts.group(&root).is_none()
            && facts.service(&http) == Some(65535),
    )
}

#[test]
fn answers(rt: HostRuntime) -> Result<(), Fail> {
    let facts = facts_of(rt.alloc())?;
    assert!(rt; counts_hold(rt.alloc(), &facts)?);
    assert!(rt; addresses_hold(&facts)?);
    assert!(rt; names_hold(&facts)?);
    Ok(())
}

#[test]
fn faults(rt: HostRuntime) {
    for (text, line, cause) in FAULTS {
        let fault = read_facts(rt.alloc(), text.as_bytes()).err();
        assert_eq!(rt; fault, Some(FactsFault::Line { line, cause }), "{text}");
    }
}
