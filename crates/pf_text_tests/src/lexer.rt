//! The statements of short units, written out by hand. A token is `w` for a word, `q` for a string, `s` for a sign, or the name
//! of a fault, then its line, behind the number of its file and `:` where that isn't 0, its text and `|`. A statement ends with
//! `.`, or with `{` where it opens a body. The tokens of a statement of more than 99 are `#`.
ghost use Rattle.std.specs.Prelude.{◌≤◌, length};

use pf_base::{List, Name, NoMemory, Place, Text};
use pf_lexer::{
    Define, LexFault, Lexer, Macros, Reads, Statement, Token, TokenKind, UnitStatements, read_unit,
};
use pf_source::{HeldFile, MemoryFiles};
use std::alloc::{AllocError, Global};
use std::process::Abort;
use std::test::Fail;

fn kind_name(kind: TokenKind) -> &'static [u8] {
    match kind {
        TokenKind::Word => b"w",
        TokenKind::Quoted => b"q",
        TokenKind::Sign => b"s",
        TokenKind::Newline => b"n",
    }
}

fn put_digit(out: &mut Vec<u8>, digit: u64) -> Result<(), NoMemory> {
    out.push(b'0' + (digit % 10) as u8)?;
    Ok(())
}

fn put(out: &mut Vec<u8>, what: &[u8], place: Place, text: &[u8]) -> Result<(), NoMemory> {
    out.extend_from_slice(what)?;
    if place.file > 0 {
        put_digit(out, place.file)?;
        out.push(b':')?;
    }
    put_digit(out, place.line as u64)?;
    out.extend_from_slice(text)?;
    out.push(b'|')?;
    Ok(())
}

fn put_token(out: &mut Vec<u8>, token: &Token) -> Result<(), NoMemory> {
    put(out, kind_name(token.kind), token.place, token.text.items())
}

fn put_fault(out: &mut Vec<u8>, fault: &LexFault) -> Result<(), NoMemory> {
    match fault {
        LexFault::BadByte(place) => put(out, b"BadByte", *place, b""),
        LexFault::Unterminated(place) => put(out, b"Unterminated", *place, b""),
        LexFault::MacroUndefined(place, name) => put(out, b"MacroUndefined", *place, name.bytes()),
        LexFault::MacroName(place) => put(out, b"MacroName", *place, b""),
        LexFault::IncludeDepth(place) => put(out, b"IncludeDepth", *place, b""),
        LexFault::TooLarge(place) => put(out, b"TooLarge", *place, b""),
        LexFault::Syntax(place) => put(out, b"Syntax", *place, b""),
        LexFault::CannotRead(name) => {
            out.extend_from_slice(b"CannotRead ")?;
            out.extend_from_slice(name.items())?;
            Ok(())
        }
        LexFault::NoMemory => Err(NoMemory),
    }
}

fn put_statement(out: &mut Vec<u8>, statement: &Statement) -> Result<(), NoMemory> {
    let tokens = statement.tokens.items();
    if tokens.len() > 99 {
        out.push(b'#')?;
    } else {
        for token in tokens {
            put_token(out, token)?;
        }
    }
    out.push(if statement.body { b'{' } else { b'.' })?;
    Ok(())
}

fn written_statements(alloc: Global, found: &UnitStatements) -> Result<Vec<u8>, NoMemory> {
    let mut out = Vec::new(alloc);
    for statement in &found.statements {
        put_statement(&mut out, statement)?;
    }
    if let Some(fault) = &found.fault {
        put_fault(&mut out, fault)?;
    }
    Ok(out)
}

fn define(rt: &impl Abort, alloc: Global, name: &[u8], value: &[u8]) -> Result<Define, Fail> {
    let name = Name::new(name).expect(rt, "a name");
    let value = List::of(Vec::from_slice(alloc, value)?);
    Ok(Define { name, value })
}

/// The macros of the tests.
fn macros(rt: &impl Abort, alloc: Global) -> Result<Macros, Fail> {
    let mut defines = Vec::new(alloc);
    defines.push(define(rt, alloc, b"a", b"old")?)?;
    defines.push(define(rt, alloc, b"a", b"a")?)?;
    defines.push(define(rt, alloc, b"empty", b"")?)?;
    defines.push(define(rt, alloc, b"ext_if", b"em0")?)?;
    defines.push(define(rt, alloc, b"ports", b"{ 22, 80 }")?)?;
    defines.push(define(rt, alloc, b"quote", b"\"x")?)?;
    defines.push(define(rt, alloc, b"hash", b"x#")?)?;
    defines.push(define(rt, alloc, b"dollar", b"{$a")?)?;
    defines.push(define(rt, alloc, b"lines", b"x\ny")?)?;
    defines.push(define(rt, alloc, b"slash", b"x\\")?)?;
    defines.push(define(rt, alloc, b"joined", b"x\\\ny")?)?;
    Ok(Macros::new(alloc, &defines)?)
}

fn text_of(alloc: Global, bytes: &[u8]) -> Result<Text, AllocError> {
    Ok(List::of(Vec::from_slice(alloc, bytes)?))
}

/// The files that the texts below may include.
static FILES: [(&[u8], &[u8]); 6] = [
    (b"k", b"x1\n\nx3"),
    (b"y", b"\ninclude k\ny3"),
    (b"anchor", b"anchor a {\nx2\n"),
    (b"close", b"}\nx2"),
    (b"m", b"m = n\n"),
    (b"brace", b"a {\nb"),
];

/// Texts and their statements.
static TEXTS: [(&[u8], &[u8]); 69] = [
    (b"pass in\n\n # x\nblock", b"w1pass|w1in|.w4block|."),
    // A newline in list braces is skipped, and in other brackets it isn't.
    (b"pass { a\nb }\nc", b"w1pass|s1{|w1a|w2b|s2}|.w3c|."),
    (b"a { { x }\ny }\nz", b"w1a|s1{|s1{|w1x|s1}|w2y|s2}|.w3z|."),
    (b"a (\nb )", b"w1a|s1(|.w2b|s2)|."),
    (b"pass { a\nb\n", b"w1pass|s1{|w1a|w2b|."),
    // A `}` without an open brace closes nothing.
    (
        b"pass }\n} }\n}\n{ }\n",
        b"w1pass|s1}|.s2}|s2}|.s3}|.s4{|s4}|.",
    ),
    (b"a } {\nb }\nc", b"w1a|s1}|s1{|w2b|s2}|.w3c|."),
    // A `{` before a newline opens a body, where the statement begins with the word `anchor`.
    (b"anchor \"a\" {\npass\n}\n", b"w1anchor|q1a|{w2pass|.s3}|."),
    (b"anchor {# x\n\npass", b"w1anchor|{w3pass|."),
    (b"anchor a \\\n{ \\\n\nb", b"w1anchor|w1a|{w4b|."),
    (
        b"anchor a { b\nc } {\nd",
        b"w1anchor|w1a|s1{|w1b|w2c|s2}|{w3d|.",
    ),
    (
        b"anchor a proto {\nb c }",
        b"w1anchor|w1a|w1proto|{w2b|w2c|s2}|.",
    ),
    (b"anchor a { {\nb", b"w1anchor|w1a|s1{|{w2b|."),
    (b"anchor a {", b"w1anchor|w1a|s1{|."),
    (b"anchor a { b }\n", b"w1anchor|w1a|s1{|w1b|s1}|."),
    (b"\"anchor\" {\nx }\ny", b"q1anchor|s1{|w2x|s2}|.w3y|."),
    (
        b"pass anchor {\nx }\ny",
        b"w1pass|w1anchor|s1{|w2x|s2}|.w3y|.",
    ),
    (
        b"$ports\n$lines z",
        b"s1{|w122|s1,|w180|s1}|.w2x|.w2y|w2z|.",
    ),
    (b"m = em1\non $m:0\n", b"w2on|w2em1:0|."),
    (b"m=\"{\" 1 'a  b' \"}\"\n$m", b"s2{|w21|w2a|w2b|s2}|."),
    (b"m = x y\n'$m' \\\n$m", b"q2$m|w3x|w3y|."),
    (b"m = x\n$m\nm = y\n$m", b"w2x|.w4y|."),
    // A macro that was given from outside keeps its value.
    (b"a = b\n$a", b"w2a|."),
    // A definition acts on the statements after it alone.
    (b"m = x $m", b"MacroUndefined1m|"),
    (b"m = x\nm = $m y\n$m", b"w3x|w3y|."),
    (b"m = x\nn = $m$m\n$n", b"Syntax3|"),
    (b"n = z\n$n = y\n$z", b"w3y|."),
    (b"k = anchor\n$k {\nx", b"w2anchor|{w3x|."),
    (
        b"anchor = x\npass = y\ninclude = z\n$anchor $pass $include",
        b"w4x|w4y|w4z|.",
    ),
    // Strings begin no definition.
    (b"\"a\" = b\n= x\na == x", b"q1a|s1=|w1b|.s2=|w2x|.Syntax3|"),
    (b"a =\n", b"Syntax1|"),
    (b"pass\na\\\n= \\\nb (\n", b"w1pass|.Syntax2|"),
    (b"a = { b }", b"Syntax1|"),
    (b"anchor = x {\n", b"Syntax1|"),
    (b"pass\n$nope\n\x01", b"w1pass|.MacroUndefined2nope|"),
    (b"$nope \\\n'x", b"Unterminated2|"),
    (b"$nope '\\\n \\\n\x01 '", b"BadByte1|"),
    (b"$dollar $- \\\n$nope", b"MacroUndefined2nope|"),
    (b"$dollar \\\n$- x", b"MacroName2|"),
    (b"$one \\\n$two", b"MacroUndefined1one|"),
    (b"pass {\n$two\n$one", b"MacroUndefined2two|"),
    // The `{` of a value that isn't put in opens no list.
    (b"pass $dollar\n$nope", b"Syntax1|"),
    (b"a-b = c", b"MacroName1|"),
    (b"pass\na-b\\\n=", b"w1pass|.MacroName2|"),
    (b"a-b = \\\n$nope", b"MacroUndefined2nope|"),
    (b"a-b = \\\n$-", b"MacroName1|"),
    (b"ab = \\\n$-", b"MacroName2|"),
    // A fault counts as a word.
    (b"ab = \\\n$dollar", b"Syntax2|"),
    (b"ab = \\\n$dollar (", b"Syntax1|"),
    (
        b"a23456789a23456789a23456789a23456789a23456789a23456789a23456789 = x\na23456789a23456789a23456789a23456789a23456789a23456789a234567890 = x",
        b"MacroName2|",
    ),
    (b"include = x\n$include", b"w2x|."),
    (b"\"include\" x\n", b"q1include|w1x|."),
    (b"include\n", b"Syntax1|"),
    (b"a\ninclude \"\"\n", b"w1a|.Syntax2|"),
    (b"include a \\\nb\n", b"Syntax1|"),
    (b"include (\n", b"Syntax1|"),
    (b"include {\na\n}\n", b"Syntax1|"),
    // A fault counts as a word.
    (b"include \\\n$dollar", b"Syntax2|"),
    (b"include \\\n$dollar x", b"Syntax1|"),
    (b"include $nope", b"MacroUndefined1nope|"),
    (b"i = include\n$i $hash\n", b"CannotRead x"),
    (b"include 'a b'", b"CannotRead a b"),
    (b"a\ninclude k\nb", b"w1a|.w1:1x1|.w1:3x3|.w3b|."),
    // A file that is included twice has one number.
    (
        b"include y\ninclude k",
        b"w2:1x1|.w2:3x3|.w1:3y3|.w2:1x1|.w2:3x3|.",
    ),
    // A body may end in another file.
    (
        b"include anchor\nb\ninclude close\nc",
        b"w1:1anchor|w1:1a|{w1:2x2|.w2b|.s2:1}|.w2:2x2|.w4c|.",
    ),
    (b"include m\n$m", b"w2n|."),
    // A file's end ends a statement.
    (b"include brace\nc }", b"w1:1a|s1:1{|w1:2b|.w2c|s2}|."),
    (b"include gone\nb", b"CannotRead gone"),
    (b"a\ninclude k\n'", b"w1a|.w1:1x1|.w1:3x3|.Unterminated3|"),
];

/// Texts that have a piece many times, and their statements.
static LONG_TEXTS: [(&[u8], &[u8], u32, &[u8], &[u8]); 12] = [
    // Statements of as many tokens as there may be, and of one more.
    (b"", b"x ", 16384, b"\npass", b"#.w2pass|."),
    (b"{ ", b"x ", 16383, b"\n\n}", b"TooLarge3|"),
    (b"{ ", b"x ", 16382, b"\n\n}\npass", b"#.w4pass|."),
    // The `{` of a body isn't one of its tokens.
    (b"anchor ", b"x ", 16383, b"{ # x\npass", b"#{w2pass|."),
    (b"anchor ", b"x ", 16383, b"{ x\n", b"TooLarge1|"),
    (b"anchor ", b"x ", 16384, b"\\\n{\n", b"TooLarge1|"),
    // Values of as many bytes as there may be, and of one more.
    (b"m = xx", b" x", 4095, b"\npass", b"w2pass|."),
    (b"m\\\n= x", b" x", 4096, b"\\\n", b"TooLarge1|"),
    (b"m = '", b" x", 4096, b"'\n", b""),
    (b"m = '", b" x", 4096, b"' \"\"", b"TooLarge1|"),
    // Of the value and the statement the value is too large at the earlier token.
    (b"m\\\n=", b" x", 16400, b"", b"TooLarge1|"),
    // Without its form a definition has no value.
    (b"m\\\n= (", b" x", 5000, b"", b"Syntax1|"),
];

/// How many files include each the next one, what the last one holds, and the statements.
static CHAINS: [(u8, &[u8], &[u8]); 4] = [
    (16, b"\npass", b"w6:2pass|."),
    (17, b"pass", b"IncludeDepth6:1|"),
    // Also where the include is outside its form, and a file that includes itself.
    (16, b"\ninclude a b", b"IncludeDepth6:2|"),
    (0, b"include ia", b"IncludeDepth1|"),
];

/// Files of which the first includes the others, and one of them twice.
static SMALL_FILES: [(&[u8], &[u8]); 4] = [
    (b"f", b"include x\ninclude y\ninclude z\ninclude x\n"),
    (b"x", b"x\n"),
    (b"y", b"y\n"),
    (b"z", b"z\n"),
];

/// The number of the read that fails, or 0, the bytes that may be read, and the statements.
static LIMITS: [(u64, u64, &[u8]); 7] = [
    (0, 48, b"w1:1x|.w2:1y|.w3:1z|.w1:1x|."),
    // The fourth file passes what the load may read, and the third read fails.
    (0, 46, b"w1:1x|.w2:1y|.w3:1z|.TooLarge1:0|"),
    (0, 44, b"w1:1x|.w2:1y|.TooLarge3:0|"),
    (3, 48, b"w1:1x|.CannotRead y"),
    (0, 39, b"TooLarge0|"),
    (1, 48, b"CannotRead f"),
    // The second read of one file fails.
    (5, 48, b"w1:1x|.w2:1y|.w3:1z|.CannotRead x"),
];

/// Texts, and the fault that comes behind their first statement, again and again.
static FAULTS: [(&[u8], &[u8]); 3] = [
    (b"a\n$nope\nb", b"MacroUndefined2nope|"),
    (b"a\ninclude gone\nb", b"CannotRead gone"),
    (b"a\n'b", b"Unterminated2|"),
];

/// Files with these names and bytes, of which the reads with these numbers fail.
fn files_of(
    alloc: Global,
    rows: &[(&[u8], &[u8])],
    fail: Vec<u64>,
) -> Result<MemoryFiles, AllocError> {
    let mut content = Vec::new(alloc);
    for (name, bytes) in rows {
        content.push(HeldFile {
            name: text_of(alloc, name)?,
            bytes: text_of(alloc, bytes)?,
        })?;
    }
    Ok(MemoryFiles::new(alloc, content, fail))
}

/// What the unit of a file is, where this many bytes may be read.
fn unit_written(
    rt: &impl Abort,
    alloc: Global,
    files: MemoryFiles,
    left: u64,
    name: &[u8],
) -> Result<Vec<u8>, Fail> {
    let mut files = files;
    let mut reads = Reads::new(alloc, left);
    let name = text_of(alloc, name)?;
    let found = read_unit(alloc, &mut files, &mut reads, &name, macros(rt, alloc)?)?;
    Ok(written_statements(alloc, &found)?)
}

/// A text with a piece many times, in a file of its own beside the others.
fn files_with(
    alloc: Global,
    front: &[u8],
    piece: &[u8],
    count: u32,
    back: &[u8],
) -> Result<MemoryFiles, AllocError> {
    let mut text = Vec::from_slice(alloc, front)?;
    for _ in 0..count {
        text.extend_from_slice(piece)?;
    }
    text.extend_from_slice(back)?;
    let mut content = Vec::new(alloc);
    content.push(HeldFile {
        name: text_of(alloc, b"f")?,
        bytes: List::of(text),
    })?;
    for (name, bytes) in &FILES {
        content.push(HeldFile {
            name: text_of(alloc, name)?,
            bytes: text_of(alloc, bytes)?,
        })?;
    }
    Ok(MemoryFiles::new(alloc, content, vec![in alloc;]?))
}
/// Files of which each includes the next one, and the last has this text.
fn chain(alloc: Global, count: u8, last: &[u8]) -> Result<MemoryFiles, AllocError> {
    let mut content = Vec::new(alloc);
    for number in 0..count {
        let mut bytes = Vec::from_slice(alloc, b"include i")?;
        bytes.push(b'a' + (number % 26) + 1)?;
        content.push(HeldFile {
            name: List::of(vec![in alloc; b'i', b'a' + (number % 26)]?),
            bytes: List::of(bytes),
        })?;
    }
    content.push(HeldFile {
        name: List::of(vec![in alloc; b'i', b'a' + (count % 26)]?),
        bytes: text_of(alloc, last)?,
    })?;
    Ok(MemoryFiles::new(alloc, content, vec![in alloc;]?))
}

// The fault that the lexer answers next.
fn next_fault(
    alloc: Global,
    lexer: &mut Lexer,
    files: &mut MemoryFiles,
    reads: &mut Reads,
) -> Result<Vec<u8>, NoMemory>
    requires { lexer.old.known ≤ length reads.old.names }
    ensures { lexer.new.known ≤ length reads.new.names }
{
    let mut out = Vec::new(alloc);
    if let Err(fault) = lexer.next_statement(alloc, files, reads) {
        put_fault(&mut out, &fault)?;
    }
    Ok(out)
}

#[test]
fn texts(rt: HostRuntime) -> Result<(), Fail> {
    let alloc = rt.alloc();
    for (text, wanted) in &TEXTS {
        let files = files_with(alloc, text, b"", 0, b"")?;
        let written = unit_written(&rt, alloc, files, 16_777_216, b"f")?;
        assert_eq!(rt; written.as_slice(), *wanted);
    }
    for (front, piece, count, back, wanted) in &LONG_TEXTS {
        let files = files_with(alloc, front, piece, *count, back)?;
        let written = unit_written(&rt, alloc, files, 16_777_216, b"f")?;
        assert_eq!(rt; written.as_slice(), *wanted);
    }
    Ok(())
}

#[test]
fn chains_and_limits(rt: HostRuntime) -> Result<(), Fail> {
    let alloc = rt.alloc();
    for (count, last, wanted) in &CHAINS {
        let files = chain(alloc, *count, last)?;
        let written = unit_written(&rt, alloc, files, 16_777_216, b"ia")?;
        assert_eq!(rt; written.as_slice(), *wanted);
    }
    for (fail, left, wanted) in &LIMITS {
        let files = files_of(alloc, &SMALL_FILES, vec![in alloc; *fail]?)?;
        let written = unit_written(&rt, alloc, files, *left, b"f")?;
        assert_eq!(rt; written.as_slice(), *wanted);
    }
    Ok(())
}

#[test]
fn faults_again(rt: HostRuntime) -> Result<(), Fail> {
    let alloc = rt.alloc();
    for (text, wanted) in &FAULTS {
        let mut files = files_with(alloc, text, b"", 0, b"")?;
        let mut reads = Reads::new(alloc, 16_777_216);
        let name = text_of(alloc, b"f")?;
        let mut lexer = Lexer::begin(alloc, &mut files, &mut reads, &name, macros(&rt, alloc)?)?;
        lexer.next_statement(alloc, &mut files, &mut reads)?;
        let once = next_fault(alloc, &mut lexer, &mut files, &mut reads)?;
        assert_eq!(rt; once.as_slice(), *wanted);
        let again = next_fault(alloc, &mut lexer, &mut files, &mut reads)?;
        assert_eq!(rt; again.as_slice(), *wanted);
        assert!(rt; files.failed().len() <= 1);
        assert_eq!(rt; reads.number(&name), Some(0));
    }
    Ok(())
}
