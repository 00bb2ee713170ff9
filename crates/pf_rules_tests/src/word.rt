//! Words against the facts of a small host.
use pf_base::Name;
use pf_host::read_facts;
use pf_word::{host_prefixes, is_table_name, read_protos};
use std::test::Fail;

#[test]
fn host_words(rt: HostRuntime) -> Result<(), Fail> {
    let facts = read_facts(
        rt.alloc(),
        b"interface em0 egress\naddress em0 192.0.2.10/24\naddress em0 2001:db8::10/64\n",
    )?;
    let networks = host_prefixes(rt.alloc(), b"egress:network", None, &facts)?;
    assert_eq!(rt; networks.items().len(), 2);
    let masked = host_prefixes(rt.alloc(), b"10", Some(b"8"), &facts)?;
    assert_eq!(rt; masked.items().len(), 1);
    Ok(())
}

#[test]
fn names(rt: HostRuntime) -> Result<(), Fail> {
    let tcp = Name::new(b"tcp").ok_or("a name")?;
    assert_eq!(rt; read_protos(rt.alloc(), &[tcp])?.values.items().len(), 1);
    assert!(rt; is_table_name(&tcp));
    Ok(())
}
