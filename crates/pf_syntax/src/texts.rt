//! Tests of the text of a token.
ghost use Rattle.std.specs.Prelude.{◌≡◌};
ghost use Rattle.std.specs.List.{list_all};
ghost use Rattle.pf_syntax.specs.Words.{is_name, is_quotable};

// No byte is a quote or a backslash.
fn are_name_bytes(text: &[u8]) -> bool
    ensures { result ≡ list_all is_quotable text.now }
{
    text.iter().all(|byte| *byte != b'"' && *byte != b'\\')
}

/// Whether it may be a name: 1 to 63 bytes without `"` and `\`.
pub fn is_name_text(text: &[u8]) -> bool
    ensures { result ≡ is_name text.now }
{
    !text.is_empty() && text.len() <= 63 && are_name_bytes(text)
}
