//! The tokens of short texts, written out by hand. A token is `w` for a word, `q` for a string, `s` for a sign, `n` for a
//! newline or the name of a fault, then its line, its text and `|`.
use pf_base::{List, Name, NoMemory};
use pf_token::{Cause, Define, Fault, Lexeme, Macros, Token, TokenKind, tokens_of};
use std::alloc::Global;
use std::process::Abort;
use std::test::Fail;

fn kind_name(kind: TokenKind) -> &'static [u8] {
    match kind {
        TokenKind::Word => b"w",
        TokenKind::Quoted => b"q",
        TokenKind::Sign => b"s",
        TokenKind::Newline => b"n",
    }
}

fn cause_name(cause: &Cause) -> &'static [u8] {
    match cause {
        Cause::BadByte => b"BadByte",
        Cause::Unterminated => b"Unterminated",
        Cause::MacroUndefined(_) => b"MacroUndefined",
        Cause::MacroName => b"MacroName",
        Cause::IncludeDepth => b"IncludeDepth",
        Cause::TooLarge => b"TooLarge",
        Cause::Syntax => b"Syntax",
    }
}

fn put(out: &mut Vec<u8>, what: &[u8], file: u64, line: u32, text: &[u8]) -> Result<(), NoMemory> {
    out.extend_from_slice(what)?;
    if file != 7 {
        out.push(b'?')?;
    }
    out.push(b'0' + (line % 10) as u8)?;
    out.extend_from_slice(text)?;
    out.push(b'|')?;
    Ok(())
}

fn put_token(out: &mut Vec<u8>, token: &Token) -> Result<(), NoMemory> {
    let place = token.place;
    put(
        out,
        kind_name(token.kind),
        place.file,
        place.line,
        token.text.items(),
    )
}

fn put_fault(out: &mut Vec<u8>, fault: &Fault) -> Result<(), NoMemory> {
    let name: &[u8] = match &fault.cause {
        Cause::MacroUndefined(name) => name.bytes(),
        _ => b"",
    };
    let place = fault.place;
    put(out, cause_name(&fault.cause), place.file, place.line, name)
}

fn written(alloc: Global, found: &[Lexeme]) -> Result<Vec<u8>, NoMemory> {
    let mut out = Vec::new(alloc);
    for lexeme in found {
        match lexeme {
            Lexeme::Token(token) => put_token(&mut out, token)?,
            Lexeme::Fault(fault) => put_fault(&mut out, fault)?,
        }
    }
    Ok(out)
}

fn define(rt: &impl Abort, alloc: Global, name: &[u8], value: &[u8]) -> Result<Define, Fail> {
    let name = Name::new(name).expect(rt, "a name");
    let value = List::of(Vec::from_slice(alloc, value)?);
    Ok(Define { name, value })
}

/// The macros of the tests.
fn macros(rt: &impl Abort, alloc: Global) -> Result<Macros, Fail> {
    let mut defines = Vec::new(alloc);
    defines.push(define(rt, alloc, b"a", b"old")?)?;
    defines.push(define(rt, alloc, b"a", b"a")?)?;
    defines.push(define(rt, alloc, b"empty", b"")?)?;
    defines.push(define(rt, alloc, b"ext_if", b"em0")?)?;
    defines.push(define(rt, alloc, b"ports", b"{ 22, 80 }")?)?;
    defines.push(define(rt, alloc, b"quote", b"\"x")?)?;
    defines.push(define(rt, alloc, b"hash", b"x#")?)?;
    defines.push(define(rt, alloc, b"dollar", b"{$a")?)?;
    defines.push(define(rt, alloc, b"lines", b"x\ny")?)?;
    defines.push(define(rt, alloc, b"slash", b"x\\")?)?;
    defines.push(define(rt, alloc, b"joined", b"x\\\ny")?)?;
    Ok(Macros::new(alloc, &defines)?)
}

fn check(
    rt: &impl Abort,
    alloc: Global,
    rows: &[(&'static [u8], &'static [u8])],
) -> Result<(), Fail> {
    let macros = macros(rt, alloc)?;
    for (text, wanted) in rows {
        let text = List::of(Vec::from_slice(alloc, text)?);
        assert!(rt; text.items().len() < 1000);
        let found = tokens_of(alloc, text, 7, &macros)?;
        let written = written(alloc, &found)?;
        assert_eq!(rt; written.as_slice(), *wanted);
    }
    Ok(())
}

#[test]
fn lines_and_blanks(rt: HostRuntime) -> Result<(), Fail> {
    let rows: [(&'static [u8], &'static [u8]); 12] = [
        (b"", b""),
        (b"pass in\nblock", b"w1pass|w1in|n1|w2block|"),
        (b" \ta\r b\r\n", b"w1a|w1b|n1|"),
        // A continued line is joined, and its line counts.
        (b"pa\\\nss\n", b"w1pass|n2|"),
        (b"a \\\n b\nc", b"w1a|w2b|n2|w3c|"),
        (b"# a\\\nb\nc", b"n2|w3c|"),
        (b"'a\\\nb' c", b"q1ab|w2c|"),
        // What a joined line leaves isn't joined again.
        (b"a\\\\\n\nb", b"w1a\\|n2|w3b|"),
        (b"\\\n\\\nb\\", b"w3b\\|"),
        // A comment runs to the end of the line and may hold any byte.
        (b"a#b c\nd", b"w1a|n1|w2d|"),
        (b"# \x01 \xff \"\nd", b"n1|w2d|"),
        (b"a # b", b"w1a|"),
    ];
    check(&rt, rt.alloc(), &rows)
}

#[test]
fn words_and_signs(rt: HostRuntime) -> Result<(), Fail> {
    let rows: [(&'static [u8], &'static [u8]); 8] = [
        (b"(){}<>!=/,", b"s1(|s1)|s1{|s1}|s1<|s1>|s1!|s1=|s1/|s1,|"),
        (b"a!=b><c", b"w1a|s1!|s1=|w1b|s1>|s1<|w1c|"),
        (b"10/8,em0:0", b"w110|s1/|w18|s1,|w1em0:0|"),
        (b"a-b.c_d*e+f%g;h[i]j`k~", b"w1a-b.c_d*e+f%g;h[i]j`k~|"),
        (b"a$b$ $a", b"w1a$b$|w1a|"),
        // A byte that may stand in a comment alone is a fault of its own.
        (b"a\x00b", b"w1a|BadByte1|w1b|"),
        (
            b"\x7f \x0b\x80\n~\x1f",
            b"BadByte1|BadByte1|BadByte1|n1|w2~|BadByte2|",
        ),
        (b"a\\b\\ c", b"w1a\\b\\|w1c|"),
    ];
    check(&rt, rt.alloc(), &rows)
}

#[test]
fn strings(rt: HostRuntime) -> Result<(), Fail> {
    let rows: [(&'static [u8], &'static [u8]); 14] = [
        (b"\"a b\" 'c\"d'", b"q1a b|q1c\"d|"),
        (b"\"\"''a\"b\"c", b"q1|q1|w1a|q1b|w1c|"),
        (b"\"#$a{\" #", b"q1#$a{|"),
        // A backslash before the quote, a space or a tab stands for that byte, any other is kept.
        (b"\"a\\\"b\\ c\\\td\"", b"q1a\"b c\td|"),
        (b"\"a\\nb\\'c\\\\d\" '\\''", b"q1a\\nb\\'c\\\\d|q1'|"),
        // There is no escaped backslash.
        (b"\"a\\\\\" b\"", b"q1a\\\" b|"),
        (b"'a\nb\r' c", b"q1ab\r|w2c|"),
        (b"'a\\\n\\\nb' c", b"q1ab|w3c|"),
        (b"a \"b\nc", b"w1a|Unterminated1|"),
        (b"a \"b\\\"", b"w1a|Unterminated1|"),
        (b"'", b"Unterminated1|"),
        // A bad byte makes the whole string a fault, also where it has no end.
        (b"\n\"a\x01\nb\" c", b"n1|BadByte2|w3c|"),
        (b"'\x80", b"BadByte1|"),
        (b"'a' '\xc3\xa9' b", b"q1a|BadByte1|w1b|"),
    ];
    check(&rt, rt.alloc(), &rows)
}

#[test]
fn macro_uses(rt: HostRuntime) -> Result<(), Fail> {
    let rows: [(&'static [u8], &'static [u8]); 13] = [
        (
            b"on $ext_if\nto $ext_if:network",
            b"w1on|w1em0|n1|w2to|w2em0:network|",
        ),
        // Tokens of a value stand at the `$`, those behind it at their own line.
        (b"\n$ports x", b"n1|s2{|w222|s2,|w280|s2}|w2x|"),
        (b"$ext_if\\\n:0 b", b"w1em0:0|w2b|"),
        // Reading goes on at the value's first byte: where a token goes on, a `$` has no meaning.
        (b"$empty$ext_if", b"w1em0|"),
        (b"$a$ext_if $a\"b\"", b"w1a$ext_if|w1a|q1b|"),
        (b"$quote y\" z", b"q1x y|w1z|"),
        (b"$quote\ny", b"Unterminated1|"),
        (b"$hash b\nc", b"w1x|n1|w2c|"),
        (b"\n$lines\nz", b"n1|w2x|n2|w2y|n2|w3z|"),
        // Lines are continued in the file alone.
        (b"$joined z", b"w1x\\|n1|w1y|w1z|"),
        (b"$slash\nz", b"w1x\\|n1|w2z|"),
        (b"'$a' $a#$a", b"q1$a|w1a|"),
        (b"{$a}", b"s1{|w1a|s1}|"),
    ];
    check(&rt, rt.alloc(), &rows)
}

#[test]
fn macro_faults(rt: HostRuntime) -> Result<(), Fail> {
    let rows: [(&'static [u8], &'static [u8]); 11] = [
        // A fault takes the rest of its word with it.
        (b"$nope:x y", b"MacroUndefined1nope|w1y|"),
        (b"\n$nope/24", b"n1|MacroUndefined2nope|s2/|w224|"),
        (
            b"$EXT_IF $ext-if",
            b"MacroUndefined1EXT_IF|MacroUndefined1ext|",
        ),
        (b"$a\\\nb", b"MacroUndefined1ab|"),
        (
            b"$a234567890123456789012345678901234567890123456789012345678901234567890",
            b"MacroUndefined1a23456789012345678901234567890123456789012345678901234567890123|",
        ),
        (b"$ x", b"MacroName1|w1x|"),
        (b"a $", b"w1a|MacroName1|"),
        (b"$-$a x", b"MacroName1|w1x|"),
        (b"$$a{", b"MacroName1|s1{|"),
        // A value with a `$` isn't put in.
        (b"$dollar:$x }", b"Syntax1|s1}|"),
        (b"a\n$dollar", b"w1a|n1|Syntax2|"),
    ];
    check(&rt, rt.alloc(), &rows)
}
