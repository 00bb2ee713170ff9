//! What the bytes of a configuration do.
ghost use Rattle.std.specs.Prelude.{◌≡◌};
ghost use Rattle.pf_token.specs.Bytes.{class_of, is_name_byte, is_known, is_word_byte, makes_words};

/// What a byte does outside quotes.
#[derive(Clone, Copy, Debug, PartialEq, Eq)]
pub enum ByteClass {
    /// It separates tokens.
    Blank,
    Newline,
    /// It is a token by itself.
    Sign,
    /// It begins a string.
    Quote,
    /// It begins a comment.
    Hash,
    /// It begins the use of a macro, or stands in a word.
    Dollar,
    /// It stands in a word.
    Plain,
    /// It may stand in a comment alone.
    Bad,
}

impl ByteClass {
    /// Whether a word may have such a byte.
    pub fn makes_words(self) -> bool
        ensures { result ≡ makes_words self }
    {
        match self {
            ByteClass::Plain | ByteClass::Dollar => true,
            _ => false,
        }
    }

    /// Whether such a byte may stand outside comments.
    pub fn is_known(self) -> bool
        ensures { result ≡ is_known self }
    {
        match self {
            ByteClass::Bad => false,
            _ => true,
        }
    }
}

/// The class of a byte.
#[tactic(auto, unfolding(crate::specs::Bytes::class_of))]
pub fn class_of(byte: u8) -> ByteClass
    ensures { result ≡ class_of byte }
{
    match byte {
        b' ' | b'\t' | b'\r' => ByteClass::Blank,
        b'\n' => ByteClass::Newline,
        b'(' | b')' | b'{' | b'}' | b'<' | b'>' | b'!' | b'=' | b'/' | b',' => ByteClass::Sign,
        b'"' | b'\'' => ByteClass::Quote,
        b'#' => ByteClass::Hash,
        b'$' => ByteClass::Dollar,
        33..=126 => ByteClass::Plain,
        _ => ByteClass::Bad,
    }
}

/// Whether a word may have the byte.
pub fn is_word_byte(byte: u8) -> bool
    ensures { result ≡ is_word_byte byte }
{
    class_of(byte).makes_words()
}

/// Whether a macro's name may have the byte: a letter, a digit or `_`.
#[tactic(auto, unfolding(crate::specs::Bytes::is_name_byte))]
pub fn is_name_byte(byte: u8) -> bool
    ensures { result ≡ is_name_byte byte }
{
    match byte {
        b'0'..=b'9' | b'A'..=b'Z' | b'a'..=b'z' | b'_' => true,
        _ => false,
    }
}
