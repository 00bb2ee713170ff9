//! Parts of statements, over the tokens of short texts.
use crate::tokens::tokens;
use pf_base::{Family, Name};
use pf_syntax::host::EachHost;
use pf_syntax::list::take_list;
use pf_syntax::operator::{EachIcmpType, EachOp, take_target};
use pf_syntax::{Cursor, FormFault, Stop, form_fault};
use std::test::Fail;

#[test]
fn lists_of_hosts(rt: HostRuntime) -> Result<(), Fail> {
    let alloc = rt.alloc();
    for (text, hosts) in [
        ("any", Ok(1)),
        ("! (em0:0)", Ok(1)),
        ("{10/8, <t> ! a 10.0.0.1 - 10.0.0.5,}", Ok(4)),
        ("{10/- any}", Ok(2)),
        ("{}", Err(Stop::Outside)),
        ("{{a}}", Err(Stop::Outside)),
        ("-", Err(Stop::Outside)),
        ("10.0.0.1 - -", Err(Stop::Outside)),
        ("\"10.0.0.1\"", Err(Stop::Outside)),
    ] {
        let tokens = tokens(&rt, alloc, text)?;
        let mut cursor = Cursor::new(alloc, &tokens);
        let found = take_list(&EachHost, &mut cursor).map(|list| list.items().len());
        assert_eq!(rt; found, hosts, "{text}");
    }
    Ok(())
}

#[test]
fn lists_of_tests(rt: HostRuntime) -> Result<(), Fail> {
    let alloc = rt.alloc();
    for (text, tests) in [
        ("{80 > < 90}", Ok(1)),
        ("{80 > 90}", Ok(2)),
        ("{!= 22, 80:90 <= 5}", Ok(3)),
        ("=", Err(Stop::Outside)),
    ] {
        let tokens = tokens(&rt, alloc, text)?;
        let mut cursor = Cursor::new(alloc, &tokens);
        let found = take_list(&EachOp, &mut cursor).map(|list| list.items().len());
        assert_eq!(rt; found, tests, "{text}");
    }
    Ok(())
}

#[test]
fn types_and_targets(rt: HostRuntime) -> Result<(), Fail> {
    let alloc = rt.alloc();
    let tokens = tokens(&rt, alloc, "{echoreq code 0, unreach} 10.0.0.1 port 80")?;
    let mut cursor = Cursor::new(alloc, &tokens);
    let each = EachIcmpType {
        family: Family::Inet,
    };
    let types = take_list(&each, &mut cursor).map_err(|_| "no types")?;
    assert_eq!(rt; types.items().len(), 2);
    let target = take_target(&mut cursor).map_err(|_| "no target")?;
    assert!(rt; target.port.is_some());
    assert!(rt; cursor.is_at_end());
    Ok(())
}

#[test]
fn faults_outside_the_grammar(rt: HostRuntime) -> Result<(), Fail> {
    let alloc = rt.alloc();
    let word = |text: &str| Name::new(text.as_bytes()).map(FormFault::Unsupported);
    for (text, fault) in [
        ("", Some(FormFault::Syntax)),
        ("pass from 'route' x", Some(FormFault::Syntax)),
        ("pass 'os' fragment os", word("fragment")),
        ("pass tos ef frag", word("ef")),
        ("set timeout interval x", word("interval")),
    ] {
        let tokens = tokens(&rt, alloc, text)?;
        assert_eq!(rt; Some(form_fault(&tokens)), fault, "{text}");
    }
    Ok(())
}
