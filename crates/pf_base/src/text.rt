//! Cuts a text into lines, words and fields, and reads decimal numbers.
ghost use Rattle.std.specs.Prelude.{◌≡◌, ℕ, Bool, true, List, [], ◌∷◌, ◌++◌, ◌<◌, ◌≤◌, length, IfSome, IfNone, position, not, slice_index, ◌==◌};
ghost use Rattle.std.specs.Char.{is_ascii_digit};
ghost use Rattle.std.specs.List.{list_all, slice_split};
ghost use Rattle.pf_base.specs.Cuts.{IsFirst, NonePasses};
ghost use Rattle.pf_base.specs.Decimal.{decimal_of, is_decimal};
ghost use Rattle.pf_base.specs.Text.{CutsLine, CutsWord, EndsNoLine, LinesGoOn, fields_of, is_blank, lines_of, words_of};

const NEWLINE: u8 = b'\n';

/// Is the byte a space or a tab?
pub fn is_blank_byte(byte: u8) -> bool
    ensures { result ≡ is_blank byte }
{
    byte == b' ' || byte == b'\t'
}

// The first place of the byte.
fn place_of(text: &[u8], byte: u8) -> Option<usize>
    ensures { result ≡ position (λ b. b == byte) text.now }
{
    text.iter().position(|b| *b == byte)
}

// The first place of a blank.
fn place_of_blank(text: &[u8]) -> Option<usize>
    ensures { result ≡ position is_blank text.now }
{
    text.iter().position(|byte| is_blank_byte(*byte))
}

// The first place of a byte that is no blank.
fn place_of_word(text: &[u8]) -> Option<usize>
    ensures { result ≡ position (λ byte. not (is_blank byte)) text.now }
{
    text.iter().position(|byte| !is_blank_byte(*byte))
}

/// The first line, without its newline, and what stands behind it; None where no newline is left.
pub fn split_line(text: &[u8]) -> Option<(&[u8], &[u8])>
    ensures line { IfSome result (λ cut. CutsLine text.now cut.0.now cut.1.now) }
    ensures none { IfNone result (EndsNoLine text.now) }
{
    let end = place_of(text, NEWLINE)?;
    Some((&text[..end], &text[end + 1..]))
}

/// The first line of a whole text, of which the last needs no newline, and the text behind it; None where no line is left.
pub fn next_line(text: &[u8]) -> Option<(&[u8], &[u8])>
    ensures line { IfSome result (λ cut. lines_of text.now ≡ cut.0.now ∷ lines_of cut.1.now) }
    ensures shorter { IfSome result (λ cut. length cut.1.now < length text.now) }
    ensures none { IfNone result (lines_of text.now ≡ []) }
{
    match split_line(text) {
        Some((line, behind)) => Some((line, behind)),
        None => {
            if text.is_empty() {
                None
            } else {
                Some((text, &[]))
            }
        }
    }
}

/// A text that goes on has its lines, and then those of its unfinished line with what follows.
pub fn lines_go_on()
    ensures { (text more : List ℕ) → LinesGoOn text more }
{}

/// A law: `position` gives the first byte that passes a test, and a text is cut there; a text of no blank is one word.
pub fn cut_laws()
    ensures first { (p : ℕ → Bool) (text : List ℕ) (i : ℕ) → position p text ≡ Some i → IsFirst p text i (slice_index text i) }
    ensures none { (p : ℕ → Bool) (text : List ℕ) → position p text ≡ None → NonePasses p text }
    ensures split { (p : ℕ → Bool) (front back : List ℕ) (byte : ℕ) → NonePasses p front → p byte ≡ true → slice_split p (front ++ byte ∷ back) ≡ front ∷ slice_split p back }
    ensures whole { (p : ℕ → Bool) (text : List ℕ) → NonePasses p text → slice_split p text ≡ text ∷ [] }
    ensures word { (byte : ℕ) (text : List ℕ) → NonePasses is_blank (byte ∷ text) → words_of (byte ∷ text) ≡ (byte ∷ text) ∷ [] }
{}

/// The first word between blanks, and what stands behind it; None where no word is left.
pub fn split_word(text: &[u8]) -> Option<(&[u8], &[u8])>
    ensures word { IfSome result (λ cut. CutsWord text.now cut.0.now cut.1.now) }
    ensures shorter { IfSome result (λ cut. length cut.1.now < length text.now) }
    ensures none { IfNone result (words_of text.now ≡ []) }
{
    let start = place_of_word(text)?;
    let word = &text[start..];
    match place_of_blank(word) {
        None => Some((word, &[])),
        Some(end) => Some((&word[..end], &word[end..])),
    }
}

/// The first field before a single space, and what stands behind that space, where there is one.
pub fn split_field(text: &[u8]) -> (&[u8], Option<&[u8]>)
    ensures last { IfNone result.1 (fields_of text.now ≡ result.0.now ∷ []) }
    ensures more { IfSome result.1 (λ rest. fields_of text.now ≡ result.0.now ∷ fields_of rest.now) }
{
    match place_of(text, b' ') {
        None => (text, None),
        Some(end) => (&text[..end], Some(&text[end + 1..])),
    }
}

/// Is the text one or more decimal digits, of any length? A number that is too large is so told from a name. Takes no memory.
pub fn is_digits(text: &[u8]) -> bool
    ensures { result ≡ is_decimal text.now }
{
    !text.is_empty() && are_digits(text)
}

// Are all bytes digits?
fn are_digits(text: &[u8]) -> bool
    ensures { result ≡ list_all is_ascii_digit text.now }
{
    text.iter().all(|byte| byte.is_ascii_digit())
}

/// The number of a text of decimal digits, where it is at most `most`. Leading zeros may stand.
#[tactic(auto, unfolding(crate::specs::Decimal::decimal_of))]
pub fn decimal(text: &[u8], most: u32) -> Option<u32>
    ensures value { result ≡ decimal_of most text.now }
    ensures bound { IfSome result (λ n. n ≤ most) }
{
    read_decimal(text, most)
}

// Reads digit by digit.
fn read_decimal(text: &[u8], most: u32) -> Option<u32>
    ensures { result ≡ decimal_of most text.now }
{
    if text.is_empty() {
        return None;
    }
    let mut value = 0u64;
    for byte in text {
        if !byte.is_ascii_digit() {
            return None;
        }
        value = 10 * value + u64::from(*byte - b'0');
        if value > u64::from(most) {
            return None;
        }
    }
    Some(value as u32)
}
