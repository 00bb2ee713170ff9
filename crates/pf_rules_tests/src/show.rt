//! Lists as lines.
ghost use Rattle.std.specs.Prelude.{◌≡◌, length, true, IfOk};
ghost use Rattle.pf_auto.specs.Standing.{names_none};
ghost use Rattle.pf_optim.specs.Meaning.{are_written};

use crate::plain::BLOCK_ALL;
use pf_auto::AutoTable;
use pf_base::{Level, List, Name, NoMemory};
use pf_optim::optimise;
use pf_parts::IfTest;
use pf_rule::Rule;
use pf_shelf::{Shelf, TableDecl};
use pf_show::{put_declared, put_lines, put_skips};
use std::alloc::Global;
use std::test::Fail;

// `block on IFACE`
fn block_on(iface: &str) -> Rule
    ensures { names_none result ≡ true }
{
    let mut rule = BLOCK_ALL;
    if let Some(name) = Name::new(iface.as_bytes()) {
        let negated = false;
        rule.criteria.iface = IfTest::On { name, negated };
    }
    rule
}

// Three rules, of which the first two have one interface.
fn three_rules(alloc: Global) -> Result<List<Rule>, NoMemory>
    ensures three { IfOk result (λ rules. length rules ≡ 3) }
    ensures written { IfOk result (λ rules. are_written rules ≡ true) }
{
    let mut rules = List::new(alloc);
    let three = [block_on("em0"), block_on("em0"), block_on("em1")];
    match rules.append_copy(&three) {
        Ok(()) => Ok(rules),
        Err(fault) => Err(fault),
    }
}

fn name(text: &str) -> Result<Name, Fail> {
    Ok(Name::new(text.as_bytes()).ok_or("a name")?)
}

// The declaration of an empty table.
fn declared(alloc: Global, text: &str) -> Result<TableDecl, Fail> {
    Ok(TableDecl {
        name: name(text)?,
        persist: true,
        constant: false,
        counters: false,
        filled: true,
        entries: List::new(alloc),
    })
}

#[test]
fn names_and_rules_stand_in_lines(rt: HostRuntime) -> Result<(), Fail> {
    let mut out = Vec::new(rt.alloc());
    put_lines(&mut out, &[name("a")?, name("b-1")?])?;
    put_lines(&mut out, &[BLOCK_ALL])?;
    assert_eq!(rt; out.as_slice(), b"a\nb-1\nblock drop all\n".as_slice());
    Ok(())
}

#[test]
fn skips_are_counted_from_one(rt: HostRuntime) -> Result<(), Fail> {
    let alloc = rt.alloc();
    let rules = optimise(alloc, three_rules(alloc)?, Level::None, &[0, 0, 0])?;
    let mut out = Vec::new(alloc);
    put_skips(&mut out, &rules)?;
    let lines = b"1 3 4 4 4 4 4 4 4\n2 3 4 4 4 4 4 4 4\n3 4 4 4 4 4 4 4 4\n";
    assert_eq!(rt; out.as_slice(), lines.as_slice());
    Ok(())
}

#[test]
fn tables_stand_by_name(rt: HostRuntime) -> Result<(), Fail> {
    let alloc = rt.alloc();
    let shelf = Shelf::new(alloc).renew(alloc, &[declared(alloc, "u")?, declared(alloc, "t")?])?;
    let mut out = Vec::new(alloc);
    put_declared(alloc, &mut out, &shelf)?;
    let entries = List::new(alloc);
    put_lines(&mut out, &[AutoTable { number: 7, entries }])?;
    let lines = b"table <t> persist { }\ntable <u> persist { }\ntable <__automatic_7> { }\n";
    assert_eq!(rt; out.as_slice(), lines.as_slice());
    Ok(())
}
