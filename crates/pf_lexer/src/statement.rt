//! Where statements end, pf.conf(5): at newlines outside list braces, and where an anchor's body begins.
ghost use Rattle.std.specs.Prelude.{◌≡◌, ◌+◌, ◌-◌, ◌<◌, ◌≤◌, ◌++◌, ◌∷◌, [], false, true, ◌&&◌, ◌^◌, IfOk, OnOk, OnErr, length};
ghost use Rattle.pf_token.specs.Macros.{value_of};
ghost use Rattle.pf_token.specs.Reading.{weight};
ghost use Rattle.pf_lexer.specs.Statements.{begins_anchor, depth_after, depth_of, most_tokens, IsStatement};
ghost use Rattle.pf_token.specs.Kinds.{is_newline, is_sign};
ghost use Rattle.pf_lexer.specs.Taking.{rest_after, is_over, is_newline_view, IsTurn, IsLightTurn, KeepsFew};

use pf_base::NoMemory;
use pf_token::{Lexeme, Macros, Reader, next_lexeme};
use std::alloc::Global;

/// The most tokens of a statement.
const MOST_TOKENS: usize = 16_384;

/// What ends a statement.
#[derive(Clone, Copy, Debug, PartialEq, Eq)]
pub enum Close {
    /// The end of the file.
    End,
    /// A newline.
    Line,
    /// The `{` of a body.
    Body,
    /// It has more tokens than a statement may have.
    Long,
}

impl Close {
    ghost use Rattle.pf_lexer.specs.Closes.{is_body, is_end, is_long};

    /// Whether a body follows.
    pub fn is_body(self) -> bool
        ensures { result ≡ is_body self }
    {
        match self {
            Close::Body => true,
            Close::End | Close::Line | Close::Long => false,
        }
    }

    /// Whether the file ends.
    pub fn is_end(self) -> bool
        ensures { result ≡ is_end self }
    {
        match self {
            Close::End => true,
            Close::Line | Close::Body | Close::Long => false,
        }
    }

    /// Whether the statement is too long.
    pub fn is_long(self) -> bool
        ensures { result ≡ is_long self }
    {
        match self {
            Close::Long => true,
            Close::End | Close::Line | Close::Body => false,
        }
    }
}

/// The tokens of a statement, with the faults in the place of tokens.
#[derive(Debug, Drop)]
pub struct RawStatement {
    pub lexemes: Vec<Lexeme>,
    pub close: Close,
}

/// A statement so far.
#[derive(Debug, Drop)]
struct StatementFront {
    lexemes: Vec<Lexeme>,
    depth: usize,
    ghost counted: { depth ≡ depth_of lexemes.items },
}

/// What comes of one more token: the statement ends, or goes on with this token in view.
#[derive(Debug, Drop)]
enum Turn {
    Closed(Close),
    Seen(Option<Lexeme>),
}

/// Whether the token in view is a newline.
fn is_newline_view(view: &Option<Lexeme>) -> bool
    ensures { result ≡ is_newline_view view.now }
{
    match view {
        Some(lexeme) => lexeme.is_newline(),
        None => false,
    }
}

/// How many list braces are open behind one more token.
fn depth_after(depth: usize, lexeme: &Lexeme) -> usize
    requires { depth + 1 < 2 ^ 64 }
    ensures { result ≡ depth_after depth lexeme.now }
{
    if lexeme.is_sign(b'{') {
        depth + 1
    } else if lexeme.is_sign(b'}') {
        depth.saturating_sub(1)
    } else {
        depth
    }
}

impl StatementFront {
    /// No token yet.
    fn new(alloc: Global) -> StatementFront
        ensures { result.lexemes.items ≡ [] }
    {
        StatementFront {
            lexemes: Vec::new(alloc),
            depth: 0,
        }
    }

    /// Whether the first token is the word `anchor`.
    fn begins_anchor(&self) -> bool
        ensures { result ≡ begins_anchor self.now.lexemes.items }
    {
        match self.lexemes.as_slice() {
            [] => false,
            [first, ..] => first.is_bare(b"anchor"),
        }
    }

    /// Adds a token.
    fn push(&mut self, lexeme: Lexeme) -> Result<(), NoMemory>
        requires { length self.old.lexemes.items ≤ most_tokens }
        ensures ok { OnOk result (self.new.lexemes.items ≡ self.old.lexemes.items ++ lexeme ∷ []) }
        ensures err { OnErr result (self.new.lexemes.items ≡ self.old.lexemes.items) }
    {
        let depth = depth_after(self.depth, &lexeme);
        self.lexemes.push(lexeme)?;
        self.depth = depth;
        Ok(())
    }
}

/// A newline ends the statement, except inside list braces.
fn pass_newline(
    alloc: Global,
    reader: &mut Reader,
    macros: &Macros,
    front: &StatementFront,
) -> Result<Turn, NoMemory>
    ensures turn { IfOk result (λ turn. (newline : Lexeme) → is_newline newline ≡ true →
        IsTurn (value_of macros.now) front.now.lexemes.items front.now.lexemes.items newline reader.old turn reader.new) }
    ensures lighter { IfOk result (λ turn. IsLightTurn turn reader.old reader.new) }
{
    if front.depth == 0 {
        return Ok(Turn::Closed(Close::Line));
    }
    let view = next_lexeme(alloc, reader, macros)?;
    Ok(Turn::Seen(view))
}

/// A `{` in a statement that begins with the word `anchor` opens a body where a newline comes next.
fn take_brace(
    alloc: Global,
    reader: &mut Reader,
    macros: &Macros,
    front: &mut StatementFront,
    brace: Lexeme,
) -> Result<Turn, NoMemory>
    requires few { length front.old.lexemes.items ≤ most_tokens }
    requires brace { is_sign 123 brace ≡ true }
    requires anchor { begins_anchor front.old.lexemes.items ≡ true }
    ensures turn { IfOk result (λ turn. IsTurn (value_of macros.now) front.old.lexemes.items front.new.lexemes.items brace reader.old turn reader.new) }
    ensures few { IfOk result (λ turn. KeepsFew turn front.new.lexemes.items) }
    ensures lighter { IfOk result (λ turn. IsLightTurn turn reader.old reader.new) }
{
    let view = next_lexeme(alloc, reader, macros)?;
    if is_newline_view(&view) {
        return Ok(Turn::Closed(Close::Body));
    }
    front.push(brace)?;
    if front.lexemes.len() > MOST_TOKENS {
        return Ok(Turn::Closed(Close::Long));
    }
    Ok(Turn::Seen(view))
}

/// Any other token is one of the statement's.
fn take_token(
    alloc: Global,
    reader: &mut Reader,
    macros: &Macros,
    front: &mut StatementFront,
    lexeme: Lexeme,
) -> Result<Turn, NoMemory>
    requires few { length front.old.lexemes.items ≤ most_tokens }
    requires no_newline { is_newline lexeme ≡ false }
    requires no_brace { (begins_anchor front.old.lexemes.items && is_sign 123 lexeme) ≡ false }
    ensures turn { IfOk result (λ turn. IsTurn (value_of macros.now) front.old.lexemes.items front.new.lexemes.items lexeme reader.old turn reader.new) }
    ensures few { IfOk result (λ turn. KeepsFew turn front.new.lexemes.items) }
    ensures lighter { IfOk result (λ turn. IsLightTurn turn reader.old reader.new) }
{
    front.push(lexeme)?;
    if front.lexemes.len() > MOST_TOKENS {
        return Ok(Turn::Closed(Close::Long));
    }
    let view = next_lexeme(alloc, reader, macros)?;
    Ok(Turn::Seen(view))
}

/// What the next token makes of a statement.
fn take(
    alloc: Global,
    reader: &mut Reader,
    macros: &Macros,
    front: &mut StatementFront,
    lexeme: Lexeme,
) -> Result<Turn, NoMemory>
    requires { length front.old.lexemes.items ≤ most_tokens }
    ensures turn { IfOk result (λ turn. IsTurn (value_of macros.now) front.old.lexemes.items front.new.lexemes.items lexeme reader.old turn reader.new) }
    ensures few { IfOk result (λ turn. KeepsFew turn front.new.lexemes.items) }
    ensures lighter { IfOk result (λ turn. IsLightTurn turn reader.old reader.new) }
{
    if lexeme.is_newline() {
        let turn = pass_newline(alloc, reader, macros, front)?;
        return Ok(turn);
    }
    if front.begins_anchor() && lexeme.is_sign(b'{') {
        let turn = take_brace(alloc, reader, macros, front, lexeme)?;
        return Ok(turn);
    }
    let turn = take_token(alloc, reader, macros, front, lexeme)?;
    Ok(turn)
}

/// Reads a statement up to its end, and no further.
pub fn read_statement(
    alloc: Global,
    reader: &mut Reader,
    macros: &Macros,
) -> Result<RawStatement, NoMemory>
    ensures ends { IfOk result (λ raw. IsStatement (value_of macros.now) reader.old raw.lexemes.items raw.close (rest_after raw.close reader.new)) }
    ensures lighter { IfOk result (λ raw. is_over raw.lexemes.items raw.close ≡ false → weight reader.new < weight reader.old) }
{
    let mut front = StatementFront::new(alloc);
    let mut view = next_lexeme(alloc, reader, macros)?;
    while let Some(lexeme) = view {
        match take(alloc, reader, macros, &mut front, lexeme)? {
            Turn::Closed(close) => {
                return Ok(RawStatement {
                    lexemes: front.lexemes,
                    close,
                });
            }
            Turn::Seen(next) => view = next,
        }
    }
    Ok(RawStatement {
        lexemes: front.lexemes,
        close: Close::End,
    })
}
