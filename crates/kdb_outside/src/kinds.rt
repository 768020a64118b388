//! The formats of files.
ghost use Rattle.std.specs.Prelude.{◌≡◌, ◌≢◌, Some, IfSome, IfNone};
ghost use Rattle.kdb_outside.specs.declared.kinds.Kind.{Kind};
ghost use Rattle.kdb_outside.specs.Kind.{kind_word, kind_of};

/// How a file holds its keys.
#[derive(Clone, Copy, PartialEq, Eq)]
pub enum Kind {
    /// Each key with its value and its metadata.
    Dump,
    /// Each key with its value, on a line of its own.
    SimpleIni,
    /// Addresses, each with a host, its aliases and comments.
    Hosts,
    /// The values of an object, each at the parts on the way to it.
    Json,
}

impl Kind {
    /// The format of a word.
    pub fn of(word: &str) -> Option<Kind>
        ensures kind { result ≡ kind_of word.now }
        ensures some { IfSome result (λ kind. kind_word kind ≡ word.now) }
        ensures none { IfNone result ((kind : Kind) → kind_word kind ≢ word.now) }
    {
        match word {
            "dump" => Some(Kind::Dump),
            "simpleini" => Some(Kind::SimpleIni),
            "hosts" => Some(Kind::Hosts),
            "json" => Some(Kind::Json),
            _ => None,
        }
    }

    /// The word of a format.
    pub fn word(self) -> &'static str
        ensures word { result.now ≡ kind_word self }
        ensures kind { kind_of result.now ≡ Some self }
    {
        match self {
            Kind::Dump => "dump",
            Kind::SimpleIni => "simpleini",
            Kind::Hosts => "hosts",
            Kind::Json => "json",
        }
    }
}
