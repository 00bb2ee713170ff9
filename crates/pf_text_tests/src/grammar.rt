//! Statements and what they are read as, over the tokens of short texts.
use crate::tokens::tokens;
use pf_base::Name;
use pf_grammar::{FormRead, parse_rule, read_draft, read_form};
use pf_syntax::FormFault;
use std::test::Fail;

#[test]
fn statements_and_their_faults(rt: HostRuntime) -> Result<(), Fail> {
    let alloc = rt.alloc();
    let outside = |word: &str| Name::new(word.as_bytes()).map(FormFault::Unsupported);
    for (text, body, fault) in [
        (
            "pass in log (all) quick on {em0, !any} inet proto tcp from any to <t> port 80:90",
            false,
            None,
        ),
        (
            "block return-icmp (3, 4) from ! 10/8 - 10.0.0.9 port 80 >< 90",
            false,
            Some(FormFault::Syntax),
        ),
        ("anchor", true, None),
        ("anchor in", false, Some(FormFault::Syntax)),
        ("anchor \"in\" in", false, None),
        ("pass", true, Some(FormFault::Syntax)),
        ("antispoof quick for { em0 em1, } inet label x", false, None),
        ("load anchor a from \"b.conf\"", false, None),
        ("block rdr-to 10.0.0.5", false, Some(FormFault::Syntax)),
        ("pass nat-to (em0)", false, Some(FormFault::Syntax)),
        (
            "pass nat-to 192.0.2.1 static-port",
            false,
            outside("static-port"),
        ),
        ("pass on frag foo route-to x", false, outside("frag")),
        ("pass on 'frag' foo route-to x", false, outside("route-to")),
        ("pass on frag", false, None),
        (
            "anchor \"a\" nat-to 10.0.0.1",
            false,
            Some(FormFault::AnchorEffect),
        ),
        (
            "anchor \"a\" keep state",
            false,
            Some(FormFault::StateOptions),
        ),
        (
            "match flags X/S keep state",
            false,
            Some(FormFault::BadFlags),
        ),
        (
            "pass flags /SA keep state (if-bound, floating)",
            false,
            Some(FormFault::StateOptions),
        ),
        (
            "pass keep state (max 5, overload <t> flush global, max-src-conn 3)",
            false,
            None,
        ),
        ("pass keep state (max 5,)", false, Some(FormFault::Syntax)),
    ] {
        let tokens = tokens(&rt, alloc, text)?;
        assert_eq!(rt; parse_rule(alloc, &tokens, body).err(), fault, "{text}");
    }
    Ok(())
}

#[test]
fn forms_keep_the_first_of_two(rt: HostRuntime) -> Result<(), Fail> {
    let alloc = rt.alloc();
    let text =
        "pass from {10.0.0.1 10.0.0.2} keep state (max 5, max 6) set (prio 1, tos 8) label x";
    let tokens = tokens(&rt, alloc, text)?;
    let FormRead { form, late } = read_form(alloc, &tokens, false).map_err(|_| "no form")?;
    assert_eq!(rt; late, Some(FormFault::StateOptions));
    assert_eq!(rt; form.options.max, Some(5));
    assert_eq!(rt; form.params.tos, Some(8));
    assert_eq!(rt; form.sources.items().len(), 2);
    assert_eq!(rt; form.label, Name::new(b"x"));
    Ok(())
}

#[test]
fn drafts_tell_the_order(rt: HostRuntime) -> Result<(), Fail> {
    let alloc = rt.alloc();
    let tokens = tokens(&rt, alloc, "pass group a user b rdr-to c nat-to d port e")?;
    let draft = read_draft(alloc, &tokens, false).map_err(|_| "no draft")?;
    assert!(rt; draft.group_first);
    assert!(rt; draft.rdr_first);
    assert!(rt; !draft.unknown_flag);
    assert!(rt; !draft.repeated_option);
    Ok(())
}
