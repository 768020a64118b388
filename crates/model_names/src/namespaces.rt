//! The namespaces of keys.

/// Where a key stands. The namespaces sort in this order. (Elektra's page on namespaces.)
#[derive(Clone, Copy, Debug, PartialEq, Eq, PartialOrd, Ord, Hash)]
pub enum Namespace {
    /// A name that is looked up in several namespaces.
    Cascading,
    /// Specifications of other keys.
    Spec,
    /// Keys of this process alone.
    Proc,
    /// Keys of a folder.
    Dir,
    /// Keys of a user.
    User,
    /// Keys of the machine.
    System,
    /// Values that stand where no other is.
    Default,
}

impl Namespace {
    ghost use Rattle.std.specs.Prelude.{◌≡◌};
    ghost use Rattle.model_names.specs.Namespaces.{has_files};

    /// Whether the namespace's keys are in files.
    pub fn has_files(self) -> bool
        ensures { result ≡ has_files self }
    {
        match self {
            Namespace::Spec | Namespace::Dir | Namespace::User | Namespace::System => true,
            Namespace::Cascading | Namespace::Proc | Namespace::Default => false,
        }
    }
}
