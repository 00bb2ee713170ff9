//! The first lines of one number, which are known, and how much there is.
use pf_gen::generated;
use std::test::Fail;

#[test]
fn first_lines_of_one(rt: HostRuntime) -> Result<(), Fail> {
    let made = generated(rt.alloc(), 1).map_err(|_| "no memory")?;
    let text = made.config.items();
    let first = b"block all\npass on em1 proto udp from 10.75.251.0/24 to any port 11\n";
    assert!(rt; text.starts_with(first.as_slice()));
    assert_eq!(rt; made.records.items().len(), 5_000);
    Ok(())
}
