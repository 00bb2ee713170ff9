//! `:network` and `:0` at the end of a word (pf.conf(5), PARAMETERS, from).
ghost use Rattle.std.specs.Prelude.{◌≡◌, ◌||◌, Some, None, nat_eq, if◌then◌else◌};
ghost use Rattle.std.specs.List.{ends_with};
ghost use Rattle.std.specs.Option.{option_copied};
ghost use Rattle.pf_word.specs.Suffixes.{taken_apart, with_one_taken, without_end};
ghost use Rattle.pf_word.specs.Words.{is_name};

use pf_addr::DynIf;
use pf_base::Name;
use std::marker::Model;

/// What is left of a word, and which of the two stood at its end.
#[derive(Drop)]
pub(crate) struct Apart<'a> {
    rest: &'a [u8],
    network: bool,
    first: bool,
}

impl<'a> Model for Apart<'a> {
    ghost use Rattle.pf_addr.specs.declared.ifaces.DynIf.{DynIf};

    ghost Value = { DynIf };

    ghost view = { λ a. record { name = a.rest.now; network = a.network; first = a.first } };
}

// The name of this text, where it is one.
pub(crate) fn name_of(text: &[u8]) -> Option<Name>
    ensures { result ≡ (if is_name text.now then Some text.now else None) }
{
    Name::new(text)
}

// The word without this end, where it has it.
fn take_end<'a>(word: &'a [u8], tail: &[u8]) -> Option<&'a [u8]>
    ensures { option_copied result ≡ (if ends_with nat_eq word.now tail.now then Some (without_end tail.now word.now) else None) }
{
    if word.ends_with(tail) {
        Some(&word[..word.len() - tail.len()])
    } else {
        None
    }
}

impl<'a> Apart<'a> {
    // One of the two taken off the end, unless it has been taken already.
    fn with_one_taken(&self) -> Apart<'a>
        ensures { result ≡ with_one_taken self.now }
    {
        if !self.network {
            if let Some(rest) = take_end(self.rest, b":network") {
                return Apart {
                    rest,
                    network: true,
                    first: self.first,
                };
            }
        }
        if !self.first {
            if let Some(rest) = take_end(self.rest, b":0") {
                return Apart {
                    rest,
                    network: self.network,
                    first: true,
                };
            }
        }
        Apart {
            rest: self.rest,
            network: self.network,
            first: self.first,
        }
    }

    // Whether one of the two stood at the end.
    pub(crate) fn has_some(&self) -> bool
        ensures { result ≡ (self.now.network || self.now.first) }
    {
        self.network || self.first
    }

    // The addresses that it stands for, where what is left is a name.
    pub(crate) fn dynamic(&self) -> Option<DynIf>
        ensures { result ≡ (if is_name self.now.name then Some self.now else None) }
    {
        match name_of(self.rest) {
            None => None,
            Some(name) => Some(DynIf {
                name,
                network: self.network,
                first: self.first,
            }),
        }
    }
}

// Takes both off the end of a word, each at most once.
#[tactic(auto, unfolding(crate::specs::Suffixes::taken_apart))]
pub(crate) fn take_apart(word: &[u8]) -> Apart<'_>
    ensures { result ≡ taken_apart word.now }
{
    let whole = Apart {
        rest: word,
        network: false,
        first: false,
    };
    whole.with_one_taken().with_one_taken()
}
