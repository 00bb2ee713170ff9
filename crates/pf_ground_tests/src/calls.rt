//! Calls in a circle and in a chain.
use pf_base::{List, Path};
use pf_calls::{CallFault, CallRow, call_fault, paths_ascend};
use pf_parts::Call;
use std::alloc::Global;
use std::process::Abort;
use std::test::Fail;

// The row of a path with the calls of these words.
fn row(rt: &impl Abort, alloc: Global, path: &str, words: &str) -> Result<CallRow, Fail> {
    let path = Path::parse_any(path.as_bytes()).ok().expect(rt, "a path");
    let mut calls = List::new(alloc);
    for word in words.split_whitespace() {
        let call = Call::parse(word.as_bytes()).ok().expect(rt, "a call");
        calls.push(call).map_err(|_| "no memory")?;
    }
    Ok(CallRow { path, calls })
}

// The fault of rows whose paths ascend.
fn fault(rt: &impl Abort, alloc: Global, rows: &[CallRow]) -> Result<Option<CallFault>, Fail> {
    let ascend = paths_ascend(rows);
    assert!(rt; ascend);
    let fault = call_fault(alloc, rows).map_err(|_| "no memory")?;
    Ok(fault)
}

fn cycle(rt: &impl Abort, path: &str) -> Option<CallFault> {
    let path = Path::parse_any(path.as_bytes()).ok().expect(rt, "a path");
    Some(CallFault::Cycle(path))
}

#[test]
fn the_first_path_on_a_cycle(rt: HostRuntime) -> Result<(), Fail> {
    let alloc = rt.alloc();
    for (rows, first) in [
        ([("/", "/"), ("a", ""), ("b", "")], "/"),
        ([("/", "x"), ("x", "../y"), ("y", "/x")], "x"),
        ([("/", "*"), ("a", "/b"), ("b", "../*")], "a"),
        ([("/", "a"), ("a", "b/*"), ("a/b/c", "../../../a")], "a"),
    ] {
        let mut list = Vec::new(alloc);
        for (path, words) in rows {
            list.push(row(&rt, alloc, path, words)?)?;
        }
        assert_eq!(rt; fault(&rt, alloc, &list)?, cycle(&rt, first), "{first}");
    }
    Ok(())
}

#[test]
fn calls_without_a_cycle(rt: HostRuntime) -> Result<(), Fail> {
    let alloc = rt.alloc();
    assert_eq!(rt; fault(&rt, alloc, &[])?, None);
    for rows in [
        [("/", ".. ../* *"), ("_1", "/"), ("a", "b /c")],
        [("/", "a/*"), ("a", "*"), ("b", "/a /a/*")],
    ] {
        let mut list = Vec::new(alloc);
        for (path, words) in rows {
            list.push(row(&rt, alloc, path, words)?)?;
        }
        assert_eq!(rt; fault(&rt, alloc, &list)?, None);
    }
    Ok(())
}

// So many rulesets, each of which calls the next.
fn chain(rt: &impl Abort, alloc: Global, count: u64) -> Result<Vec<CallRow>, Fail> {
    let mut list = Vec::new(alloc);
    for number in 0..count {
        let path = format!(in alloc; "a{:02}", number)?;
        let next = format!(in alloc; "/a{:02}", number + 1)?;
        list.push(row(rt, alloc, path.as_str(), next.as_str())?)?;
    }
    Ok(list)
}

#[test]
fn a_chain_has_64_rulesets(rt: HostRuntime) -> Result<(), Fail> {
    let alloc = rt.alloc();
    let most = chain(&rt, alloc, 64)?;
    assert_eq!(rt; fault(&rt, alloc, &most)?, None);
    let over = chain(&rt, alloc, 65)?;
    assert_eq!(rt; fault(&rt, alloc, &over)?, Some(CallFault::Deep(65)));
    Ok(())
}
