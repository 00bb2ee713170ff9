use pf_base::{Family, Name};
use pf_ops::{
    Interval, Numbers, Op16, Op32, OpKind, flag_bits, flags_of, icmp_number, icmp_of, proto_name,
    proto_number, proto_of, put_flags,
};

#[test]
fn operators_hold_on_their_numbers(rt: HostRuntime) {
    let cases = [
        (OpKind::Between, 1024, 65535, 1025, true),
        (OpKind::Between, 1024, 65535, 65534, true),
        (OpKind::Between, 1024, 65535, 1024, false),
        (OpKind::Between, 1024, 65535, 65535, false),
        (OpKind::Between, 7, 8, 7, false),
        (OpKind::Between, 7, 8, 8, false),
        (OpKind::Within, 6000, 6010, 6000, true),
        (OpKind::Within, 6000, 6010, 6010, true),
        (OpKind::Within, 6000, 6010, 5999, false),
        (OpKind::Within, 6000, 6010, 6011, false),
        (OpKind::Outside, 0, 65535, 0, false),
        (OpKind::Outside, 0, 65535, 65535, false),
        (OpKind::Outside, 10, 20, 9, true),
        (OpKind::Outside, 10, 20, 10, false),
        (OpKind::Outside, 10, 20, 20, false),
        (OpKind::Outside, 10, 20, 21, true),
        (OpKind::Outside, 20, 10, 15, true),
        (OpKind::Equal, 22, 0, 22, true),
        (OpKind::Equal, 22, 0, 0, false),
        (OpKind::Other, 0, 7, 0, false),
        (OpKind::Other, 0, 7, 7, true),
        (OpKind::Other, 65535, 0, 65535, false),
        (OpKind::Below, 0, 9, 0, false),
        (OpKind::Below, 1024, 0, 1023, true),
        (OpKind::Below, 1024, 0, 1024, false),
        (OpKind::UpTo, 1024, 0, 1024, true),
        (OpKind::UpTo, 1024, 0, 1025, false),
        (OpKind::Above, 65535, 0, 65535, false),
        (OpKind::Above, 1024, 0, 1025, true),
        (OpKind::Above, 1024, 0, 1024, false),
        (OpKind::From, 1024, 0, 1024, true),
        (OpKind::From, 1024, 0, 1023, false),
    ];
    for (kind, low, high, value, want) in cases {
        assert_eq!(rt;
            Op16::make(kind, low, high).holds(value),
            want,
            "{kind:?} {low} {high} at {value}"
        );
    }
    let most = u32::MAX;
    assert!(rt; Op32::make(OpKind::Above, 65535, 0).holds(most));
    assert!(rt; !Op32::make(OpKind::Other, most, 0).holds(most));
}

#[test]
fn a_set_covers_its_subsets(rt: HostRuntime) {
    let cases = [
        ((OpKind::Other, 80, 0), (OpKind::Below, 80, 0), true),
        ((OpKind::Other, 80, 0), (OpKind::Above, 80, 0), true),
        ((OpKind::Other, 80, 0), (OpKind::UpTo, 80, 0), false),
        ((OpKind::Outside, 10, 20), (OpKind::Outside, 9, 30), true),
        ((OpKind::Outside, 10, 20), (OpKind::Outside, 9, 19), false),
        ((OpKind::Outside, 10, 20), (OpKind::Within, 9, 21), false),
        ((OpKind::Within, 1, 10), (OpKind::Between, 0, 11), true),
        ((OpKind::Within, 1, 10), (OpKind::Between, 20, 21), true),
        ((OpKind::Between, 20, 21), (OpKind::Within, 1, 10), false),
    ];
    for ((kind, low, high), (other_kind, other_low, other_high), want) in cases {
        let set = Op16::make(kind, low, high);
        let other = Op16::make(other_kind, other_low, other_high);
        assert_eq!(rt; set.covers(&other), want, "{set:?} and {other:?}");
    }
}

#[test]
fn sets_have_one_form(rt: HostRuntime) {
    let all = Numbers::One(Interval {
        low: 0,
        high: 65535,
    });
    assert_eq!(rt; Op16::make(OpKind::Outside, 8, 7).numbers(), all);
    assert_eq!(rt;
        Op16::make(OpKind::From, 0, 0),
        Op16::make(OpKind::Within, 0, 65535)
    );
    assert_eq!(rt; Op16::make(OpKind::Between, 5, 5).numbers(), Numbers::Empty);
    assert_eq!(rt;
        Op32::make(OpKind::Within, 9, 3),
        Op32::make(OpKind::Below, 0, 0)
    );
    let low = Interval { low: 0, high: 4 };
    let high = Interval {
        low: 6,
        high: 4294967295,
    };
    assert_eq!(rt;
        Op32::make(OpKind::Other, 5, 0).numbers(),
        Numbers::Two(low, high)
    );
    assert_ne!(rt;
        Op32::make(OpKind::Other, 5, 0),
        Op32::make(OpKind::Other, 6, 0)
    );
}

#[test]
fn words_stand_for_numbers(rt: HostRuntime) {
    for (word, number) in [
        ("icmp", Some(1)),
        ("pfsync", Some(240)),
        ("ipv6-icmp", Some(58)),
        ("TCP", None),
        ("", None),
        ("255", Some(255)),
        ("006", Some(6)),
        ("256", None),
    ] {
        assert_eq!(rt; proto_of(word.as_bytes()), number, "{word}");
    }
    assert_eq!(rt; proto_number(b"6"), None);
    assert_eq!(rt; proto_name(58), Name::new(b"icmp6"));
    assert_eq!(rt; proto_name(0), None);
    for (family, word, number) in [
        (Family::Inet, "echorep", Some(0)),
        (Family::Inet6, "unreach", Some(1)),
        (Family::Inet6, "neighbradv", Some(136)),
        (Family::Inet, "toobig", None),
        (Family::Inet6, "redir", None),
        (Family::Inet, "013", Some(13)),
        (Family::Inet6, "256", None),
    ] {
        assert_eq!(rt; icmp_of(family, word.as_bytes()), number, "{word}");
    }
    assert_eq!(rt; icmp_number(Family::Inet, b"13"), None);
}

#[test]
fn letters_stand_for_flags(rt: HostRuntime) {
    for (letters, bits, strict, printed) in [
        ("S", 2u8, Some(2u8), "S"),
        ("AS", 18, Some(18), "SA"),
        ("WEUAPRSF", 255, Some(255), "FSRPAUEW"),
        ("SS", 2, Some(2), "S"),
        ("Sx", 2, None, "S"),
        ("s", 0, None, ""),
        ("", 0, None, ""),
    ] {
        assert_eq!(rt; flag_bits(letters.as_bytes()), bits, "{letters}");
        assert_eq!(rt; flags_of(letters.as_bytes()), strict, "{letters}");
        let mut out = Vec::new(rt.alloc());
        assert_eq!(rt; put_flags(&mut out, bits), Ok(()), "{letters}");
        assert_eq!(rt; out.as_slice(), printed.as_bytes(), "{letters}");
    }
}
