use pf_addr::{
    AddrFault, Prefix, Range, RangeFault, parse_addr, parse_masked, parse_prefix,
    parse_prefix_parts, put_addr, put_prefix,
};
use std::test::Fail;

// Texts that are no address.
const NO_ADDRESSES: [&str; 27] = [
    "",
    "1.2.3",
    "1.2.3.4.5",
    "01.2.3.4",
    "1.2.3.00",
    "1.2.3.256",
    "1.2.3.4 ",
    " 1.2.3.4",
    "1..2.3",
    "+1.2.3.4",
    "1.2.3.4.",
    ":",
    ":::",
    "1:2:3:4:5:6:7",
    "1:2:3:4:5:6:7:8:9",
    "1:2:3:4:5:6:7::8",
    "1::2::3",
    "::12345",
    "::g",
    "1:2:3:4:5:6:7:1.2.3.4",
    "::1.2.3",
    "::1.2.3.04",
    "1.2.3.4::",
    "::1%em0",
    "[::1]",
    "1:",
    "1.2.3.4/32/32",
];

// A text, and the text of RFC 5952 of the address.
const ADDRESSES: [(&str, &str); 24] = [
    ("0.0.0.0", "0.0.0.0"),
    ("192.0.2.10", "192.0.2.10"),
    ("255.255.255.255", "255.255.255.255"),
    ("::", "::"),
    ("0:0:0:0:0:0:0:0", "::"),
    ("::1", "::1"),
    ("1::", "1::"),
    ("2001:db8:0:0:1:0:0:1", "2001:db8::1:0:0:1"),
    ("2001:DB8:0:0:8:800:200C:417A", "2001:db8::8:800:200c:417a"),
    ("2001:db8:0:1:1:1:1:1", "2001:db8:0:1:1:1:1:1"),
    ("2001:db8::1:1:1:1:1", "2001:db8:0:1:1:1:1:1"),
    ("2001:0db8:0000:0000:0000:0000:0002:0001", "2001:db8::2:1"),
    ("2001:0:0:1:0:0:0:1", "2001:0:0:1::1"),
    ("1:2:3:4:5:6:7::", "1:2:3:4:5:6:7:0"),
    ("::2:3:4:5:6:7:8", "0:2:3:4:5:6:7:8"),
    ("0:0:1:0:0:1:0:0", "::1:0:0:1:0:0"),
    ("1:0:0:2:3:0:0:4", "1::2:3:0:0:4"),
    ("::ffff:192.0.2.1", "::ffff:c000:201"),
    ("::192.0.2.1", "::c000:201"),
    ("64:ff9b::192.0.2.33", "64:ff9b::c000:221"),
    ("1:2:3:4:5:6:1.2.3.4", "1:2:3:4:5:6:102:304"),
    ("fe80::abcd:0:0f:00f", "fe80::abcd:0:f:f"),
    (
        "ffff:ffff:ffff:ffff:ffff:ffff:ffff:ffff",
        "ffff:ffff:ffff:ffff:ffff:ffff:ffff:ffff",
    ),
    ("10:100:1000:1:f:ff:fff:0", "10:100:1000:1:f:ff:fff:0"),
];

// A text, and the text of its prefix.
const PREFIXES: [(&str, &str); 16] = [
    ("172.16/12", "172.16.0.0/12"),
    ("10/8", "10.0.0.0/8"),
    ("10.1.2/24", "10.1.2.0/24"),
    ("10.1.2.3/24", "10.1.2.0/24"),
    ("10.1.2.3/024", "10.1.2.0/24"),
    ("10.1.2.3/0", "0.0.0.0/0"),
    ("0/0", "0.0.0.0/0"),
    ("10.1.2.3/32", "10.1.2.3"),
    ("10.1.2.3", "10.1.2.3"),
    ("255.255.255.255/1", "128.0.0.0/1"),
    ("2001:db8::1/64", "2001:db8::/64"),
    ("2001:db8:ffff::/33", "2001:db8:8000::/33"),
    ("ffff::/000", "::/0"),
    ("::1/128", "::1"),
    ("::ffff:192.0.2.77/120", "::ffff:c000:200/120"),
    ("::1", "::1"),
];

// A text of no prefix, and why.
const FAULTS: [(&str, AddrFault); 16] = [
    ("10/33", AddrFault::MaskTooLong(33)),
    ("10/033", AddrFault::MaskTooLong(33)),
    ("10.1.2.3/999", AddrFault::MaskTooLong(999)),
    ("::/129", AddrFault::MaskTooLong(129)),
    ("10/0033", AddrFault::NotAnAddress),
    ("10/1000", AddrFault::NotAnAddress),
    ("10/", AddrFault::NotAnAddress),
    ("/8", AddrFault::NotAnAddress),
    ("10", AddrFault::NotAnAddress),
    ("10.1.2", AddrFault::NotAnAddress),
    ("10./8", AddrFault::NotAnAddress),
    ("010/8", AddrFault::NotAnAddress),
    ("256/33", AddrFault::NotAnAddress),
    ("1.2.3.4.5/8", AddrFault::NotAnAddress),
    ("10/8/8", AddrFault::NotAnAddress),
    ("10/+8", AddrFault::NotAnAddress),
];

// A prefix, a prefix or an address, and whether the first covers the second.
const COVERS: [(&str, &str, bool); 12] = [
    ("10/8", "10.1.2.3", true),
    ("10/8", "11.0.0.0", false),
    ("10/8", "10.1.2/24", true),
    ("10.1.2/24", "10/8", false),
    ("10.1.2/24", "10.1.2/24", true),
    ("0/0", "255.255.255.255", true),
    ("0/0", "::", false),
    ("::/0", "0.0.0.0", false),
    ("::/0", "ffff::/16", true),
    ("2001:db8::/33", "2001:db8:8000::/33", false),
    ("::1", "::1", true),
    ("::/96", "0.0.0.1", false),
];

#[test]
fn addresses(rt: HostRuntime) -> Result<(), Fail> {
    for text in NO_ADDRESSES {
        assert_eq!(rt;
            parse_addr(text.as_bytes()),
            Err(AddrFault::NotAnAddress),
            "{text}"
        );
    }
    for (text, shortest) in ADDRESSES {
        let addr = parse_addr(text.as_bytes())?;
        let mut out = Vec::new(rt.alloc());
        assert_eq!(rt; put_addr(&mut out, &addr), Ok(()), "{text}");
        assert_eq!(rt; out.as_slice(), shortest.as_bytes(), "{text}");
        assert_eq!(rt; parse_addr(out.as_slice()), Ok(addr), "{text}");
    }
    Ok(())
}

#[test]
fn prefixes(rt: HostRuntime) -> Result<(), Fail> {
    for (text, printed) in PREFIXES {
        let prefix = parse_prefix(text.as_bytes())?;
        let mut out = Vec::new(rt.alloc());
        assert_eq!(rt; put_prefix(&mut out, &prefix), Ok(()), "{text}");
        assert_eq!(rt; out.as_slice(), printed.as_bytes(), "{text}");
        assert_eq!(rt; parse_prefix(out.as_slice()), Ok(prefix), "{text}");
        if let Some((word, mask)) = text.split_once('/') {
            let parts = parse_prefix_parts(word.as_bytes(), mask.as_bytes());
            assert_eq!(rt; parts, Ok(prefix), "{text} in parts");
            let masked = parse_masked(text.as_bytes())?;
            assert_eq!(rt; masked.network, prefix, "{text} with its address");
        }
    }
    Ok(())
}

#[test]
fn faults(rt: HostRuntime) {
    for (text, fault) in FAULTS {
        assert_eq!(rt; parse_prefix(text.as_bytes()), Err(fault), "{text}");
        assert_eq!(rt; parse_masked(text.as_bytes()).err(), Some(fault), "{text}");
    }
}

#[test]
fn order(rt: HostRuntime) -> Result<(), Fail> {
    let mut last = parse_prefix(b"0/0")?;
    for text in ["10/8", "10/24", "10.0.0.0", "10.0.1/24", "::/0", "::1"] {
        let next = parse_prefix(text.as_bytes())?;
        assert!(rt; last < next && last.addr <= next.addr, "{text}");
        last = next;
    }
    Ok(())
}

// The ends of a range, and why they are none.
const RANGES: [(&str, &str, Option<RangeFault>); 5] = [
    ("10.0.0.1", "10.0.0.9", None),
    ("10.0.0.1", "10.0.0.1", None),
    ("10.0.0.2", "10.0.0.1", Some(RangeFault::LowAboveHigh)),
    ("10.0.0.1", "::1", Some(RangeFault::TwoFamilies)),
    ("::1", "10.0.0.1", Some(RangeFault::TwoFamilies)),
];

#[test]
fn sets(rt: HostRuntime) -> Result<(), Fail> {
    for (wide, narrow, want) in COVERS {
        let prefix = parse_prefix(wide.as_bytes())?;
        let other = parse_prefix(narrow.as_bytes())?;
        assert_eq!(rt; prefix.covers(&other), want, "{wide} and {narrow}");
        assert!(rt;
            !want || prefix.contains(&other.addr),
            "{wide} and {narrow}"
        );
    }
    for (low, high, fault) in RANGES {
        let low = parse_addr(low.as_bytes())?;
        let made = Range::between(&low, &parse_addr(high.as_bytes())?);
        assert_eq!(rt; made.err(), fault, "{low:?}");
    }
    let wide = parse_prefix(b"10.0.0/24")?;
    let range = Range::between(&parse_addr(b"10.0.0.1")?, &parse_addr(b"10.0.0.9")?)?;
    let one = Prefix::of(&range.low);
    assert!(rt; wide.stretch().encloses(&range.stretch()));
    assert!(rt; !range.stretch().encloses(&wide.stretch()));
    for (text, in_range, in_one) in [
        ("10.0.0.0", false, false),
        ("10.0.0.1", true, true),
        ("10.0.0.9", true, false),
        ("10.0.0.10", false, false),
        ("::a00:1", false, false),
    ] {
        let addr = parse_addr(text.as_bytes())?;
        let found = (range.contains(&addr), one.contains(&addr));
        assert_eq!(rt; found, (in_range, in_one), "{text}");
        assert_eq!(rt; range.stretch().contains(&addr), in_range, "{text}");
    }
    Ok(())
}
