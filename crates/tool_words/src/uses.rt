//! What a command does with a name.
ghost use Rattle.std.specs.Prelude.{◌≡◌};
ghost use Rattle.tool_words.specs.Uses.{bars};

use key_name::Namespace;

/// It looks the name up, or it writes what the name stands for or names a file or a mount by it.
#[derive(Clone, Copy, PartialEq, Eq)]
pub enum Use {
    Looks,
    Writes,
}

/// Whether names of a namespace can't be used so.
pub fn bars(by: Use, namespace: Namespace) -> bool
    ensures { result ≡ bars by namespace }
{
    match by {
        Use::Looks => false,
        Use::Writes => is_without_file(namespace),
    }
}

/// Whether no file holds names of a namespace.
fn is_without_file(namespace: Namespace) -> bool
    ensures { result ≡ bars Use.Writes namespace }
{
    match namespace {
        Namespace::Cascading | Namespace::Proc | Namespace::Default => true,
        Namespace::Spec | Namespace::Dir | Namespace::User | Namespace::System => false,
    }
}
