ghost use Rattle.std.specs.Prelude.{◌==◌};

use pf_base::{Name, Path};
use pf_tree::{Blank, Tree};
use std::alloc::Global;
use std::test::Fail;

// A number as a payload: 0 is blank.
#[derive(Clone, Copy, Debug, PartialEq, Eq)]
struct Ticket(u64);

impl Blank for Ticket {
    ghost is_blank = { λ ticket. ticket.0 == 0 };

    fn fresh(_alloc: Global) -> Ticket {
        Ticket(0)
    }

    fn is_blank(&self) -> bool {
        self.0 == 0
    }

    fn blank(&mut self) {
        self.0 = 0;
    }
}

fn path(text: &[u8]) -> Result<Path, Fail> {
    Ok(Path::parse_any(text).ok().ok_or("no path")?)
}

// Puts a number at a path where one may be put.
fn put(tree: &mut Tree<Ticket>, alloc: Global, text: &[u8], number: u64) -> Result<u64, Fail> {
    let path = path(text)?;
    tree.prepare(alloc, &[path])?;
    let mut ticket = Ticket(number);
    tree.install(&path, &mut ticket);
    Ok(ticket.0)
}

fn number_at(tree: &Tree<Ticket>, text: &[u8]) -> Result<Option<u64>, Fail> {
    let path = path(text)?;
    Ok(tree.get(&path).map(|ticket| ticket.0))
}

#[test]
fn a_prepared_path_has_nothing_before_a_payload_is_put_there(rt: HostRuntime) -> Result<(), Fail> {
    let mut tree: Tree<Ticket> = Tree::new(rt.alloc());
    let main = Path::main();
    tree.prepare(rt.alloc(), &[path(b"x/y")?])?;
    assert!(rt; tree.next_child(&main, None).is_none());
    assert_eq!(rt; number_at(&tree, b"x/y")?, None);
    assert_eq!(rt; put(&mut tree, rt.alloc(), b"x/y", 7)?, 0);
    assert_eq!(rt; tree.next_child(&main, None), Name::new(b"x"));
    assert_eq!(rt; number_at(&tree, b"x/y")?, Some(7));
    assert_eq!(rt; number_at(&tree, b"x")?, None);
    assert_eq!(rt; put(&mut tree, rt.alloc(), b"x/y", 0)?, 7);
    assert!(rt; tree.next_child(&main, None).is_none());
    Ok(())
}

#[test]
fn what_stands_below_nameless_children_goes(rt: HostRuntime) -> Result<(), Fail> {
    let mut tree: Tree<Ticket> = Tree::new(rt.alloc());
    for (text, number) in [
        (b"_1".as_slice(), 1),
        (b"_1/a".as_slice(), 2),
        (b"b/_2".as_slice(), 3),
    ] {
        put(&mut tree, rt.alloc(), text, number)?;
    }
    put(&mut tree, rt.alloc(), b"/", 4)?;
    tree.clear_under(&Path::main());
    assert_eq!(rt; number_at(&tree, b"_1")?, None);
    assert_eq!(rt; number_at(&tree, b"_1/a")?, None);
    assert_eq!(rt; number_at(&tree, b"b/_2")?, Some(3));
    assert_eq!(rt; number_at(&tree, b"/")?, Some(4));
    tree.clear_under(&path(b"b")?);
    assert_eq!(rt; number_at(&tree, b"b/_2")?, None);
    Ok(())
}

#[test]
fn children_come_in_byte_order(rt: HostRuntime) -> Result<(), Fail> {
    let mut tree: Tree<Ticket> = Tree::new(rt.alloc());
    for (text, number) in [
        (b"b".as_slice(), 1),
        (b"a/z".as_slice(), 2),
        (b"ab".as_slice(), 3),
        (b"c/d".as_slice(), 0),
    ] {
        put(&mut tree, rt.alloc(), text, number)?;
    }
    let main = Path::main();
    let names = [b"a".as_slice(), b"ab".as_slice(), b"b".as_slice()];
    let mut last = None;
    for name in names {
        let next = tree.next_child(&main, last.as_ref());
        assert_eq!(rt; next, Name::new(name));
        last = next;
    }
    assert!(rt; tree.next_child(&main, last.as_ref()).is_none());
    put(&mut tree, rt.alloc(), b"1/2/3/4/5/6/7/8", 4)?;
    assert_eq!(rt;
        tree.next_child(&path(b"1/2/3/4/5/6/7")?, None),
        Name::new(b"8")
    );
    assert!(rt; tree.next_child(&path(b"1/2/3/4/5/6/7/8")?, None).is_none());
    Ok(())
}

#[test]
fn paths_come_in_path_order(rt: HostRuntime) -> Result<(), Fail> {
    let mut tree: Tree<Ticket> = Tree::new(rt.alloc());
    for text in [
        b"b".as_slice(),
        b"ab".as_slice(),
        b"a/z".as_slice(),
        b"/".as_slice(),
        b"a".as_slice(),
    ] {
        put(&mut tree, rt.alloc(), text, 1)?;
    }
    tree.prepare(rt.alloc(), &[path(b"c/d")?])?;
    let paths = tree.paths(rt.alloc())?;
    let wanted = [
        path(b"/")?,
        path(b"a")?,
        path(b"a/z")?,
        path(b"ab")?,
        path(b"b")?,
    ];
    assert_eq!(rt; paths.items(), wanted.as_slice());
    Ok(())
}
