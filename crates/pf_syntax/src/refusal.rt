//! What a statement outside the grammar is refused as.
ghost use Rattle.std.specs.Prelude.{◌≡◌, ◌≤◌, length, IfSome};
ghost use Rattle.std.specs.Option.{option_copied};
ghost use Rattle.pf_syntax.specs.Words.{bare_text};
ghost use Rattle.pf_syntax.specs.Fault as says;
ghost use Rattle.pf_syntax.specs.Fault.{is_one_of, outside_fault, timeouts, tos_left_out, words_left_out};
ghost use Rattle.pf_syntax.specs.Symbols.{symbol_of, symbols};

use crate::fault::FormFault;
use crate::listed::{Listed, is_one_of};
use pf_base::named_in_fault;
use pf_token::{Token, TokenKind};

const WORDS: [Listed; 32] = [
    Listed(b"route-to"),
    Listed(b"reply-to"),
    Listed(b"dup-to"),
    Listed(b"divert-to"),
    Listed(b"divert-reply"),
    Listed(b"divert-packet"),
    Listed(b"rdomain"),
    Listed(b"rtable"),
    Listed(b"received-on"),
    Listed(b"route"),
    Listed(b"no-route"),
    Listed(b"urpf-failed"),
    Listed(b"os"),
    Listed(b"fragment"),
    Listed(b"probability"),
    Listed(b"once"),
    Listed(b"af-to"),
    Listed(b"binat-to"),
    Listed(b"static-port"),
    Listed(b"bitmask"),
    Listed(b"random"),
    Listed(b"source-hash"),
    Listed(b"round-robin"),
    Listed(b"least-states"),
    Listed(b"sticky-address"),
    Listed(b"max-pkt-rate"),
    Listed(b"delay"),
    Listed(b"flows"),
    Listed(b"quantum"),
    Listed(b"hostid"),
    Listed(b"syncookies"),
    Listed(b"state-defaults"),
];

const TIMEOUTS: [Listed; 20] = [
    Listed(b"tcp.first"),
    Listed(b"tcp.opening"),
    Listed(b"tcp.established"),
    Listed(b"tcp.closing"),
    Listed(b"tcp.finwait"),
    Listed(b"tcp.closed"),
    Listed(b"tcp.tsdiff"),
    Listed(b"udp.first"),
    Listed(b"udp.single"),
    Listed(b"udp.multiple"),
    Listed(b"icmp.first"),
    Listed(b"icmp.error"),
    Listed(b"other.first"),
    Listed(b"other.single"),
    Listed(b"other.multiple"),
    Listed(b"frag"),
    Listed(b"interval"),
    Listed(b"src.track"),
    Listed(b"adaptive.start"),
    Listed(b"adaptive.end"),
];

const TOS: [Listed; 24] = [
    Listed(b"ef"),
    Listed(b"cs0"),
    Listed(b"cs1"),
    Listed(b"cs2"),
    Listed(b"cs3"),
    Listed(b"cs4"),
    Listed(b"cs5"),
    Listed(b"cs6"),
    Listed(b"cs7"),
    Listed(b"af11"),
    Listed(b"af12"),
    Listed(b"af13"),
    Listed(b"af21"),
    Listed(b"af22"),
    Listed(b"af23"),
    Listed(b"af31"),
    Listed(b"af32"),
    Listed(b"af33"),
    Listed(b"af41"),
    Listed(b"af42"),
    Listed(b"af43"),
    Listed(b"critical"),
    Listed(b"inetcontrol"),
    Listed(b"netcontrol"),
];

// Whether it is such a word.
#[tactic(auto, unfolding(crate::specs::Fault::words_left_out))]
fn is_word(word: &[u8]) -> bool
    ensures { result ≡ is_one_of words_left_out word.now }
{
    is_one_of(&WORDS, word)
}

// Whether it is the name of a timeout.
#[tactic(auto, unfolding(crate::specs::Fault::timeouts))]
fn is_timeout(word: &[u8]) -> bool
    ensures { result ≡ is_one_of timeouts word.now }
{
    is_one_of(&TIMEOUTS, word)
}

// Whether it is the name of a value of `tos` that isn't supported.
#[tactic(auto, unfolding(crate::specs::Fault::tos_left_out))]
fn is_tos(word: &[u8]) -> bool
    ensures { result ≡ is_one_of tos_left_out word.now }
{
    is_one_of(&TOS, word)
}

// Whether it is a word of a part that isn't supported.
#[tactic(auto, unfolding(crate::specs::Fault::is_left_out))]
fn is_left_out(word: &[u8]) -> bool
    ensures { result ≡ says.is_left_out word.now }
{
    is_word(word) || is_timeout(word) || is_tos(word)
}

// The word of a token that is one without quotes.
fn bare_word(token: &Token) -> Option<&[u8]>
    ensures { option_copied result ≡ bare_text (symbol_of token.now) }
{
    if token.kind == TokenKind::Word {
        Some(token.text.items())
    } else {
        None
    }
}

// The first word without quotes of a part that isn't supported.
fn first_left_out(tokens: &[Token]) -> Option<&[u8]>
    ensures found { option_copied result ≡ says.first_left_out (symbols tokens.now) }
    ensures some { IfSome result (λ word. 1 ≤ length word.now) }
{
    for token in tokens {
        if let Some(word) = bare_word(token) {
            if is_left_out(word) {
                return Some(word);
            }
        }
    }
    None
}

/// `Unsupported` with the first word without quotes of a part of pf.conf(5) that isn't supported; `Syntax` where
/// there is none. Takes no memory.
pub fn form_fault(tokens: &[Token]) -> FormFault
    ensures { result ≡ outside_fault (symbols tokens.now) }
{
    match first_left_out(tokens) {
        None => FormFault::Syntax,
        Some(word) => FormFault::Unsupported(named_in_fault(word)),
    }
}
