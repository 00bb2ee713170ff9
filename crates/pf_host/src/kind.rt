//! What a line of a facts file is about.
ghost use Rattle.std.specs.Prelude.{◌≡◌};
ghost use Rattle.pf_host.specs.Line.{kind_named};

#[derive(Clone, Copy, Debug, PartialEq, Eq)]
pub(crate) enum Kind {
    Interface,
    Address,
    Host,
    User,
    Group,
    Service,
}

// The kind of the lines that begin with this word.
#[tactic(auto, unfolding(crate::specs::Line::kind_named))]
pub(crate) fn kind_of(word: &[u8]) -> Option<Kind>
    ensures { result ≡ kind_named word.now }
{
    if word == b"interface".as_slice() {
        Some(Kind::Interface)
    } else if word == b"address".as_slice() {
        Some(Kind::Address)
    } else if word == b"host".as_slice() {
        Some(Kind::Host)
    } else if word == b"user".as_slice() {
        Some(Kind::User)
    } else if word == b"group".as_slice() {
        Some(Kind::Group)
    } else if word == b"service".as_slice() {
        Some(Kind::Service)
    } else {
        None
    }
}
