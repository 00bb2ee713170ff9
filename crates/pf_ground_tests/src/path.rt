use pf_base::{Name, Path, PathFault};
use std::test::Fail;

#[test]
fn texts_without_a_fault_are_paths(rt: HostRuntime) -> Result<(), Fail> {
    let longest = [b'a'; 63];
    let cases = [
        (b"/".as_slice(), 0),
        (b"ftp".as_slice(), 1),
        (b"ftp/user-1.2:3+4@host".as_slice(), 2),
        (b"...".as_slice(), 1),
        (b"a/b_/c/d/e/f/g/h".as_slice(), 8),
        (longest.as_slice(), 1),
    ];
    for (text, count) in cases {
        let path = Path::parse(text).ok().ok_or("a fault")?;
        assert_eq!(rt; path.names().len(), count, "{text:?}");
        assert_eq!(rt; Path::parse_any(text), Ok(path), "{text:?}");
    }
    assert_eq!(rt; Path::parse(b"/"), Ok(Path::main()));
    let path = Path::parse(b"ftp/in").ok().ok_or("a fault")?;
    let last = path.names().last().ok_or("no name")?;
    assert_eq!(rt; last.bytes(), b"in".as_slice());
    Ok(())
}

#[test]
fn the_first_fault_from_the_left_is_told(rt: HostRuntime) {
    let long = [b'a'; 64];
    let cases = [
        (b"a//b".as_slice(), PathFault::Empty),
        (b"".as_slice(), PathFault::Empty),
        (b"a/".as_slice(), PathFault::Empty),
        (b"//".as_slice(), PathFault::Empty),
        (b"/a!".as_slice(), PathFault::Empty),
        (b"_x".as_slice(), PathFault::Reserved),
        (b"a/_1/b!".as_slice(), PathFault::Reserved),
        (b"_x!".as_slice(), PathFault::BadByte(2)),
        (b"ab/c*".as_slice(), PathFault::BadByte(4)),
        (b".".as_slice(), PathFault::BadByte(0)),
        (b"a/..".as_slice(), PathFault::BadByte(2)),
        (b"a/b c//".as_slice(), PathFault::BadByte(3)),
        (long.as_slice(), PathFault::TooLong(64)),
        (b"a/a/a/a/a/a/a/a/a".as_slice(), PathFault::TooDeep(9)),
        (b"a/a/a/a/a/a/a/a/!".as_slice(), PathFault::BadByte(16)),
    ];
    for (text, fault) in cases {
        assert_eq!(rt; Path::parse(text), Err(fault), "{text:?}");
    }
    assert!(rt; Path::parse_any(b"_x").is_ok());
    assert_eq!(rt; Path::parse_any(b"_x!"), Err(PathFault::BadByte(2)));
}

#[test]
fn names_are_added_below(rt: HostRuntime) -> Result<(), Fail> {
    let ftp = Name::new(b"ftp").ok_or("no name")?;
    let dots = Name::new(b"..").ok_or("no name")?;
    let space = Name::new(b"a b").ok_or("no name")?;
    let reserved = Name::new(b"_1").ok_or("no name")?;
    let main = Path::main();
    let child = main.child(&ftp).ok_or("no child")?;
    assert_eq!(rt; Path::parse(b"ftp"), Ok(child));
    assert_eq!(rt; main.child(&dots), None);
    assert_eq!(rt; main.child(&space), None);
    assert!(rt; main.child(&reserved).is_some());
    let four = Path::parse(b"a/b/c/d").ok().ok_or("a fault")?;
    let eight = four.join(&four).ok().ok_or("too deep")?;
    assert_eq!(rt; Path::parse(b"a/b/c/d/a/b/c/d"), Ok(eight));
    assert_eq!(rt; eight.child(&ftp), None);
    assert_eq!(rt; eight.join(&child), Err(PathFault::TooDeep(9)));
    assert_eq!(rt; main.join(&eight), Ok(eight));
    assert!(rt; main < child);
    assert!(rt; four < child);
    Ok(())
}
