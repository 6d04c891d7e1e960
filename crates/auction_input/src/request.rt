//! What is asked of an input.

ghost use Rattle.std.specs.Prelude.{◌≡◌};
ghost use Rattle.auction_input.specs.Requests.{format_of, ignores_others, target_named, target_of};

use byte_sinks::Format;

/// A command that takes the parts of an input.
#[derive(Clone, Copy)]
pub enum Target {
    Text,
    Compile,
    Map,
    Report,
    Verify,
}

impl Target {
    /// The command of this name.
    pub fn named(name: &str) -> Option<Target>
        ensures { result ≡ target_named name.now }
    {
        match name {
            "text" => Some(Target::Text),
            "compile" => Some(Target::Compile),
            "map" => Some(Target::Map),
            "report" => Some(Target::Report),
            "verify" => Some(Target::Verify),
            _ => None,
        }
    }
}

/// What `explain` is asked.
#[derive(Clone, Copy)]
pub struct ExplainOptions {
    /// Whether it prints, of an input without a fault, which bids are in no program.
    pub bids: bool,
    /// The command as which the input is taken, if one is named.
    pub target: Option<Target>,
    /// How faults and bids are printed: as lines in words, or of JSON.
    pub format: Format,
}

/// What is printed as objects of JSON.
#[derive(Clone, Copy)]
pub enum Objects {
    /// What `Request::Forms` asks for.
    Forms,
    /// What `Objects::Forms` asks for, and after it what solutions of all groups win.
    Report { workers: usize },
    /// What `Objects::Forms` asks for, and after it what solutions of all groups win, where certificates show that nobody wins more.
    Verify { workers: usize },
}

/// A command with its options.
#[derive(Clone, Copy)]
pub enum Request {
    /// The program of the empty group.
    Text,
    /// The sizes of an MPS text.
    Check,
    /// The programs of all groups, by so many workers.
    Compile { workers: usize },
    /// All faults of an input, or which of its bids are in no program.
    Explain(ExplainOptions),
    /// What a solution wins without a group, which counts from 1.
    Map { group: usize },
    /// What the solutions of all groups win, and the groups' opportunity costs, by so many workers.
    Report { workers: usize },
    /// What the solutions of all groups win, and the groups' opportunity costs, where certificates show that nobody wins more, by so
    /// many workers.
    Verify { workers: usize },
    /// What `Forms` asks for, and after it what `Verify` does.
    VerifyWithForms { workers: usize },
    /// The digests of the texts of the rules and of each bidder's last form.
    Forms,
    /// Objects of JSON in place of words.
    Objects(Objects),
}

impl Request {
    /// The command as which a request takes the parts of an input: itself, or the one that `explain` names; none where `explain`
    /// names none, nor for `check`, whose input has no parts, nor for `forms`, which takes the parts of every command.
    pub fn target(&self) -> Option<Target>
        ensures { result ≡ target_of self.now }
    {
        match *self {
            Request::Text => Some(Target::Text),
            Request::Check | Request::Forms | Request::Objects(Objects::Forms) => None,
            Request::Compile { workers: _ } => Some(Target::Compile),
            Request::Explain(options) => options.target,
            Request::Map { group: _ } => Some(Target::Map),
            Request::Report { workers: _ } | Request::Objects(Objects::Report { workers: _ }) => {
                Some(Target::Report)
            }
            Request::Verify { workers: _ }
            | Request::VerifyWithForms { workers: _ }
            | Request::Objects(Objects::Verify { workers: _ }) => Some(Target::Verify),
        }
    }

    /// How what is found in the input is printed: `explain` may be asked for JSON.
    pub fn format(&self) -> Format
        ensures { result ≡ format_of self.now }
    {
        match *self {
            Request::Explain(options) => options.format,
            Request::Text
            | Request::Check
            | Request::Compile { workers: _ }
            | Request::Map { group: _ }
            | Request::Report { workers: _ }
            | Request::Verify { workers: _ }
            | Request::VerifyWithForms { workers: _ }
            | Request::Forms
            | Request::Objects(_) => Format::Words,
        }
    }

    /// Whether parts of groups and of solutions may be there in any number, as none of them is read.
    pub fn ignores_others(&self) -> bool
        ensures { result ≡ ignores_others self.now }
    {
        matches!(self, Request::Forms | Request::Objects(Objects::Forms))
    }
}
