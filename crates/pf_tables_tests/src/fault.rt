//! The order of faults, written out by hand.
use pf_base::{FaultKind, Place};
use pf_fault::{Fault, first_of};
use std::test::Fail;

fn at(line: u32) -> Place {
    Place { file: 0, line }
}

fn fault(kind: FaultKind, line: u32) -> Option<Fault> {
    Some(Fault {
        kind,
        place: at(line),
    })
}

#[test]
fn faults_in_order(rt: HostRuntime) -> Result<(), Fail> {
    let bad = fault(FaultKind::BadByte, 2);
    let mask = fault(FaultKind::MaskTooLong(33), 1);
    let flags = fault(FaultKind::BadFlags, 1);
    assert_eq!(&rt; first_of(mask, bad), bad);
    assert_eq!(&rt; first_of(bad, mask), bad);
    assert_eq!(&rt; first_of(flags, mask), mask);
    assert_eq!(&rt; first_of(mask, fault(FaultKind::MaskTooLong(34), 2)), mask);
    assert_eq!(&rt; first_of(None, flags), flags);
    assert_eq!(&rt; first_of(flags, None), flags);
    Ok(())
}
