//! The refusals of a run: why it has no report, and the line that is printed then.

ghost use Rattle.std.specs.Prelude.{◌≡◌};
ghost use Rattle.reports.specs.Refusals.{refusal_text};

/// Why a run has no report.
#[derive(Clone, Copy, Debug, PartialEq, Eq)]
pub enum Refusal {
    /// The words are refused.
    Usage,
    /// The input cannot be read.
    Input,
    /// The cubes cannot be read.
    Cubes,
    /// The proof that is to be checked cannot be read.
    Proof,
    /// A listener or a connection cannot be opened.
    Links,
    /// The proof that was found cannot be written.
    Writing,
    /// Memory was refused.
    NoMemory,
}

impl Refusal {
    /// The line that is printed, ended by LF. `quiet` is the flag `-q`: it leaves out every line except `c usage`.
    pub fn line(self, quiet: bool) -> &'static str
        ensures { result.now ≡ refusal_text self quiet }
    {
        match self {
            Refusal::Usage => "c usage\n",
            _ if quiet => "",
            Refusal::Input => "c cannot read input\n",
            Refusal::Cubes => "c cannot read cubes\n",
            Refusal::Proof => "c cannot read proof\n",
            Refusal::Links => "c cannot open links\n",
            Refusal::Writing => "c cannot write proof\n",
            Refusal::NoMemory => "c no memory\n",
        }
    }
}
