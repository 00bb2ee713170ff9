ghost use Rattle.std.specs.Prelude.{◌≡◌, ◌+◌, OnOk};
ghost use Rattle.std.specs.Cmp.Lexicographic.{slice_cmp};
ghost use Rattle.std.specs.FinMap as finite;
ghost use Rattle.std.specs.Ordering.{nat_cmp};
ghost use Rattle.pf_base.specs.OrderedMap.{map_of};

use pf_base::text::{decimal, is_digits};
use pf_base::{
    Family, Ledger, List, Name, NoMemory, Path, Place, Same, Steps, Text, Uncounted, is_plain_byte,
    name_map_laws, named_in_fault,
};
use std::collections::BTreeMap;
use std::test::Fail;

#[test]
fn lists_grow_behind_their_items(rt: HostRuntime) -> Result<(), NoMemory> {
    let mut list = List::new(rt.alloc());
    assert_eq!(rt; list.items(), [].as_slice());
    list.push(3u16)?;
    list.push_copy(&1)?;
    list.append_copy(&[4, 1])?;
    list.append_copy(&[])?;
    assert_eq!(rt; list.items(), [3, 1, 4, 1].as_slice());
    let one = List::one_copy(rt.alloc(), &5u16)?;
    assert_eq!(rt; one.items(), [5].as_slice());
    let mut items = list.into_items();
    items.push(5)?;
    assert_eq!(rt; List::of(items).items(), [3, 1, 4, 1, 5].as_slice());
    Ok(())
}

#[test]
fn a_word_is_cut_to_a_name(rt: HostRuntime) {
    let long = [b'a'; 64];
    let cases = [
        (b"x".as_slice(), 1),
        (b"1.2.3.4/33".as_slice(), 10),
        (&long[..63], 63),
        (long.as_slice(), 63),
    ];
    for (word, count) in cases {
        if !word.is_empty() {
            assert_eq!(rt; named_in_fault(word).bytes().len(), count, "{word:?}");
        }
    }
}

#[test]
fn digits_of_any_length_are_a_number(rt: HostRuntime) {
    let cases = [
        (b"".as_slice(), false, None),
        (b"0".as_slice(), true, Some(0)),
        (b"065535".as_slice(), true, Some(65535)),
        (b"65536".as_slice(), true, None),
        (b"99999999999999999999999999".as_slice(), true, None),
        (b"80a".as_slice(), false, None),
        (b"http".as_slice(), false, None),
        (b"-1".as_slice(), false, None),
    ];
    for (text, digits, number) in cases {
        assert_eq!(rt; is_digits(text), digits, "{text:?}");
        assert_eq!(rt; decimal(text, 65535), number, "{text:?}");
    }
    assert!(rt; is_plain_byte(b'+'));
    assert!(rt; !is_plain_byte(b'/'));
}

// Through the bound alone.
fn are_same<T: Same>(one: &T, other: &T) -> bool {
    one.same(other) && one.is_one_with(other)
}

#[test]
fn values_are_the_same_part_by_part(rt: HostRuntime) -> Result<(), Fail> {
    let place = Place { file: 0, line: 7 };
    let below = Place { file: 0, line: 8 };
    assert!(rt; are_same(&place, &place));
    assert!(rt; !are_same(&place, &below));
    assert!(rt; are_same(&Family::Inet6, &Family::Inet6));
    assert!(rt; !are_same(&Family::Inet, &Family::Inet6));
    let ftp = Name::new(b"ftp").ok_or("no name")?;
    let www = Name::new(b"www").ok_or("no name")?;
    assert!(rt; are_same(&Some((ftp, true)), &Some((ftp, true))));
    assert!(rt; !are_same(&Some((ftp, true)), &Some((www, true))));
    assert!(rt; !are_same(&Some((ftp, true)), &None));
    assert!(rt; !are_same(&Some((ftp, true)), &Some((ftp, false))));
    let path = Path::main().child(&ftp).ok_or("no child")?;
    assert!(rt; !are_same(&Path::main(), &path));
    let one = List::one_copy(rt.alloc(), &80u16)?;
    let mut two = List::one_copy(rt.alloc(), &80u16)?;
    assert!(rt; are_same(&one, &two));
    two.push(443)?;
    assert!(rt; !are_same(&one, &two));
    assert!(rt; !are_same(&two, &one));
    Ok(())
}

// Counts in any ledger.
fn count_two<L: Ledger>(steps: &mut Steps<L>)
    ensures { steps.new ≡ steps.old + 2 }
{
    steps.tick();
    steps.tick();
}

fn counted() -> Steps<Uncounted>
    ensures { result ≡ 2 }
{
    let mut steps = Steps::start();
    count_two(&mut steps);
    steps
}

fn put(map: &mut BTreeMap<Name, Text>, name: Name, value: Text) -> Result<(), NoMemory>
    ensures { OnOk result (map_of (slice_cmp nat_cmp) map.new ≡ finite.insert (map_of (slice_cmp nat_cmp) map.old) name value) }
{
    name_map_laws::<Text>();
    map.insert(name, value)?;
    Ok(())
}

#[test]
fn a_counter_and_a_map_by_name(rt: HostRuntime) -> Result<(), Fail> {
    let _steps = counted();
    let mut map = BTreeMap::new(rt.alloc());
    let name = Name::new(b"ext_if").ok_or("no name")?;
    put(&mut map, name, List::one_copy(rt.alloc(), &b'e')?)?;
    put(&mut map, name, List::one_copy(rt.alloc(), &b'v')?)?;
    assert_eq!(rt; map.len(), 1);
    let value = map.get(&name).ok_or("no value")?;
    assert_eq!(rt; value.items(), b"v".as_slice());
    Ok(())
}
