//! What came of a line.
ghost use Rattle.std.specs.Prelude.{◌≡◌};

/// What came of a line.
#[derive(Clone, Copy, Debug, PartialEq, Eq)]
pub enum Outcome {
    /// It was done.
    Done,
    /// It was refused, and changed nothing; a refused commit of an open session closed it.
    Refused,
}

impl Outcome {
    ghost use Rattle.pf_engine.specs.Answering.{is_refused};

    /// Was the line refused?
    pub fn is_refused(self) -> bool
        ensures { result ≡ is_refused self }
    {
        match self {
            Outcome::Done => false,
            Outcome::Refused => true,
        }
    }
}
