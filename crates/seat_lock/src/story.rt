//! What the value under a lock has to be.
ghost use Rattle.std.specs.Prelude.{◌≡◌, length};

/// A value that stands for a list of entries, each with its maker's number, which is 0 where no seat made it.
pub trait Storied {
    ghost use Rattle.std.specs.Prelude.{◌≡◌, ℕ, List, length};

    type Entry;

    // The number of the seat that made an entry.
    ghost maker: { Self.Entry → ℕ };

    // The value stands for this list.
    ghost stands: { Self → List Self.Entry → Type 0 };

    // The list for which a value stands when a lock is made of it.
    ghost first: { Self → List Self.Entry };

    // What the turn that ends has added.
    ghost more: { Self → List Self.Entry };

    /// How many entries there are.
    fn count(&self) -> u64
        ensures { (log : List Self.Entry) → stands self.now log → result ≡ length log };
}
