//! Tables with a file, written out by hand.
use pf_base::{FaultKind, List, Name, Place, Text};
use pf_decl::{TableForm, TableItem};
use pf_entries::{has_words, read_table};
use pf_fault::Stop;
use pf_host::Facts;
use pf_lexer::Reads;
use pf_shelf::TableDecl;
use pf_source::{HeldFile, MemoryFiles};
use std::alloc::{AllocError, Global};
use std::process::Abort;
use std::test::Fail;

fn text_of(alloc: Global, bytes: &[u8]) -> Result<Text, AllocError> {
    Ok(List::of(Vec::from_slice(alloc, bytes)?))
}

// The declaration of a table with 10.0.0.0/8 in braces and the file `t`.
fn form_of(rt: &impl Abort, alloc: Global) -> Result<TableForm, Fail> {
    let mut items = List::new(alloc);
    items.push(TableItem {
        negated: false,
        word: text_of(alloc, b"10.0.0.0")?,
        mask: Some(text_of(alloc, b"8")?),
    })?;
    let mut files = List::new(alloc);
    files.push(text_of(alloc, b"t")?)?;
    Ok(TableForm {
        name: Name::new(b"t").expect(rt, "a name"),
        persist: false,
        constant: false,
        counters: false,
        items: Some(items),
        files,
    })
}

fn held(alloc: Global, name: &[u8], bytes: &[u8]) -> Result<HeldFile, AllocError> {
    Ok(HeldFile {
        name: text_of(alloc, name)?,
        bytes: text_of(alloc, bytes)?,
    })
}

// What it comes to where the file has this text; the declaration stands in the load's first file.
#[tactic(auto, using(std::proofs::lemmas::Option::slice_get_within))]
fn declared(rt: &impl Abort, alloc: Global, text: &[u8]) -> Result<Result<TableDecl, Stop>, Fail> {
    let mut content = Vec::new(alloc);
    content.push(held(alloc, b"pf.conf", b"")?)?;
    content.push(held(alloc, b"t", text)?)?;
    let mut files = MemoryFiles::new(alloc, content, Vec::new(alloc));
    let mut reads = Reads::new(alloc, 16_777_216);
    let form = form_of(rt, alloc)?;
    assert!(rt; has_words(&form));
    match reads.read(alloc, &mut files, &text_of(alloc, b"pf.conf")?) {
        Ok(unit) => {
            let place = Place {
                file: unit.number,
                line: 1,
            };
            let facts = Facts::none(alloc);
            Ok(read_table(alloc, &mut files, &mut reads, &facts, &[], form, place))
        }
        Err(_) => Ok(Err(Stop::NoMemory)),
    }
}

fn place_of(stop: &Stop) -> Option<(FaultKind, u64, u32)> {
    match stop {
        Stop::Fault(found) => Some((found.kind, found.place.file, found.place.line)),
        Stop::Unread(_) | Stop::NoMemory => None,
    }
}

fn fault_in(answer: &Result<TableDecl, Stop>) -> Option<(FaultKind, u64, u32)> {
    match answer {
        Ok(_) => None,
        Err(stop) => place_of(stop),
    }
}

fn entries_in(answer: &Result<TableDecl, Stop>) -> Option<usize> {
    match answer {
        Ok(table) => Some(table.entries.items().len()),
        Err(_) => None,
    }
}

#[test]
fn faults_of_a_file(rt: HostRuntime) -> Result<(), Fail> {
    let alloc = rt.alloc();
    let cases: [(&[u8], FaultKind, u32); 3] = [
        (b"#\n !10/8", FaultKind::TableConflict, 2),
        (b"10/33\n\x01", FaultKind::BadByte, 2),
        (b"10/33", FaultKind::MaskTooLong(33), 1),
    ];
    for (text, kind, line) in &cases {
        let answer = declared(&rt, alloc, text)?;
        assert_eq!(&rt; fault_in(&answer), Some((*kind, 1, *line)));
    }
    Ok(())
}

#[test]
fn entries_of_a_file(rt: HostRuntime) -> Result<(), Fail> {
    let text = b"192.0.2.1\t!10.1.0.0/16 # 10.2.0.0/16\n10/8";
    let answer = declared(&rt, rt.alloc(), text)?;
    assert_eq!(&rt; entries_in(&answer), Some(3));
    Ok(())
}
