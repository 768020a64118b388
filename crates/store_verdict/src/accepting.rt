//! Whether a prepared set was made for a record.
ghost use Rattle.std.specs.Prelude.{◌≡◌, nat_eq, map as over};
ghost use Rattle.std.specs.List.{list_all};
ghost use Rattle.std.specs.Option.{option_eq};
ghost use Rattle.model_store.specs.Cores.{accepts};
ghost use Rattle.model_store.specs.Sets.{front_in};
ghost use Rattle.store_verdict.specs.PreparedView.{front_of, prepared_of};
ghost use Rattle.store_verdict.specs.RecordView.{handle_of, record_of};

use crate::prepared::{Seen, front_of};
use crate::{Prepared, Record};

impl Record {
    /// Whether a set was prepared for this handle, with the fronts that the record still has of the involved mounts,
    /// and the handle has committed nothing since.
    pub fn accepts(&self, set: &Prepared) -> bool
        ensures { result ≡ accepts (record_of self.now) (handle_of self.now) (prepared_of set.now) }
    {
        self.handle() == set.handle
            && self.committed() == set.committed
            && has_fronts(self, set.seen.as_slice())
    }
}

/// Whether a record has the fronts with which some mounts were seen.
fn has_fronts(rec: &Record, seen: &[Seen]) -> bool
    ensures { result
        ≡ list_all (λ m. option_eq nat_eq (front_in (record_of rec.now) m) (front_of seen.now m)) (over (λ one. one.mount) seen.now) }
{
    for one in seen {
        if rec.fetched(one.mount) != front_of(seen, one.mount) {
            return false;
        }
    }
    true
}
