//! Drafts with bodies and units, written out by hand.
use pf_base::{FaultKind, Level, List, Name, Path, Place, Text};
use pf_decl::Queue;
use pf_fault::Fault;
use pf_plan::{Draft, FilledPaths, Part, Plan, end_fault, nameless_path, plan_of};
use pf_shelf::TableDecl;
use std::alloc::{AllocError, Global};
use std::process::Abort;
use std::test::Fail;

fn at(line: u32) -> Place {
    Place { file: 0, line }
}

fn fault(kind: FaultKind, line: u32) -> Option<Fault> {
    Some(Fault {
        kind,
        place: at(line),
    })
}

fn begun(rt: &impl Abort, alloc: Global, path: &[u8]) -> Draft {
    let path = Path::parse(path).expect(rt, "a path");
    Draft::begin(alloc, path, at(0))
}

fn ended(rt: &impl Abort, alloc: Global, given: Option<Level>, draft: Draft) -> Plan {
    assert!(rt; end_fault(&draft).is_none());
    plan_of(alloc, given, draft).expect(rt, "a plan")
}

#[test]
fn plans_of_empty_units(rt: HostRuntime) -> Result<(), Fail> {
    let alloc = rt.alloc();
    let draft = begun(&rt, alloc, b"/");
    assert!(&rt; draft.is_in_main());
    assert_eq!(&rt; draft.room(), 16_385);
    let plan = ended(&rt, alloc, None, draft);
    assert_eq!(&rt; plan.parts.items().len(), 1);
    assert!(&rt; plan.whole.is_some());
    assert_eq!(&rt; plan.level, Level::Basic);
    let draft = begun(&rt, alloc, b"x/y");
    assert!(&rt; !draft.is_in_main());
    let plan = ended(&rt, alloc, Some(Level::None), draft);
    assert!(&rt; plan.whole.is_none());
    assert_eq!(&rt; plan.level, Level::None);
    Ok(())
}

fn path_of(rt: &impl Abort, text: &[u8]) -> Path {
    Path::parse_any(text).expect(rt, "a path")
}

fn text_of(alloc: Global, bytes: &[u8]) -> Result<Text, AllocError> {
    Ok(List::of(Vec::from_slice(alloc, bytes)?))
}

// The draft behind an open body at this line.
fn opened(
    rt: &impl Abort,
    alloc: Global,
    draft: Draft,
    text: &[u8],
    line: u32,
) -> Result<Draft, Fail> {
    let nameless = text.ends_with(b"_1");
    let draft = draft.opened(alloc, path_of(rt, text), at(line), nameless)?;
    assert!(rt; draft.is_in_body());
    assert_eq!(rt; end_fault(&draft), fault(FaultKind::UnclosedBody, line));
    Ok(draft)
}

// The draft behind the next unit, which fills `b`.
fn loaded(rt: &impl Abort, alloc: Global, draft: Draft) -> Result<Draft, Fail> {
    let path = path_of(rt, b"b");
    let draft = draft.with_load(path, text_of(alloc, b"b.conf")?)?;
    assert!(rt; draft.next_load().is_some());
    let left = draft.begun < draft.loads.items().len() as u64;
    assert!(rt; left);
    let draft = draft.next_unit(alloc, path, Place { file: 1, line: 0 })?;
    assert!(rt; draft.next_load().is_none());
    Ok(draft)
}

fn paths_are(rt: &impl Abort, parts: &[Part], paths: &[&[u8]]) {
    assert_eq!(rt; parts.len(), paths.len());
    for (part, path) in parts.iter().zip(paths) {
        assert_eq!(rt; part.path, path_of(rt, path));
    }
}

#[test]
fn bodies_and_units(rt: HostRuntime) -> Result<(), Fail> {
    let alloc = rt.alloc();
    let draft = opened(&rt, alloc, begun(&rt, alloc, b"/"), b"a", 2)?;
    let draft = opened(&rt, alloc, draft, b"a/_1", 3)?;
    let draft = draft.closed()?;
    assert_eq!(&rt; draft.here.nameless, 1);
    let draft = draft.closed()?;
    assert!(&rt; draft.is_filled(&path_of(&rt, b"a")));
    let draft = loaded(&rt, alloc, draft)?;
    let plan = ended(&rt, alloc, None, draft);
    paths_are(&rt, plan.parts.items(), &[b"/", b"a", b"a/_1", b"b"]);
    Ok(())
}

#[test]
fn statements_without_rules(rt: HostRuntime) -> Result<(), Fail> {
    let alloc = rt.alloc();
    let draft = begun(&rt, alloc, b"/");
    let draft = draft.with_rules(List::new(alloc), &None, at(1))?;
    let draft = draft.with_lines(List::new(alloc))?;
    assert_eq!(&rt; draft.room(), 16_385);
    assert_eq!(&rt; nameless_path(alloc, 12)?, path_of(&rt, b"_12"));
    Ok(())
}

fn name_of(rt: &impl Abort, text: &[u8]) -> Name {
    Name::new(text).expect(rt, "a name")
}

fn queue_of(rt: &impl Abort, parent: Option<Name>) -> Queue {
    Queue {
        name: name_of(rt, b"q"),
        iface: None,
        parent,
        bandwidth: None,
        min: None,
        max: None,
        default_queue: false,
        qlimit: None,
        place: at(4),
    }
}

#[test]
fn tables_and_queues(rt: HostRuntime) -> Result<(), Fail> {
    let alloc = rt.alloc();
    let draft = begun(&rt, alloc, b"/").with_table(TableDecl {
        name: name_of(&rt, b"t"),
        persist: true,
        constant: false,
        counters: false,
        filled: false,
        entries: List::new(alloc),
    })?;
    assert_eq!(&rt; draft.here.own.tables.items().len(), 1);
    let draft = draft.with_queue(queue_of(&rt, Some(name_of(&rt, b"p"))))?;
    assert_eq!(&rt; end_fault(&draft), fault(FaultKind::QueueParent, 4));
    Ok(())
}

#[test]
fn filled_paths(rt: HostRuntime) -> Result<(), Fail> {
    let filled = FilledPaths::new(rt.alloc()).with(path_of(&rt, b"a/b"))?;
    assert!(&rt; filled.has(&path_of(&rt, b"a/b")));
    assert!(&rt; !filled.has(&path_of(&rt, b"a")));
    Ok(())
}
