//! The keys of a set behind a name. They stay where they are in memory, since their order stays.
ghost use Rattle.std.specs.Prelude.{◌≡◌, Some, None, if◌then◌else◌, IfOk};
ghost use Rattle.std.specs.FinMap as map;
ghost use Rattle.std.specs.List.{AllByRecursion};
ghost use Rattle.key_name.specs.Joining.{joined};
ghost use Rattle.key_set.specs.Whole.{all_fit, has_whole, whole};
ghost use Rattle.key_set.specs.WholeOrder.{joined_order};
ghost use Rattle.model_names.specs.declared.namespaces.Namespace.TheVariants.{Cascading};

use crate::KeySet;
use chunked_map::Renames;
use key_meta::Memory;
use key_name::{KeyName, NameFault};
use model_names::Namespace;
use std::alloc::{AllocError, Global};
use std::mem;

impl KeySet {
    /// The keys under names that stand behind a point. There are none where one of these names would be too long. Keys
    /// that this set alone has are not copied.
    pub fn behind(self, point: &KeyName) -> Result<Option<KeySet>, Memory>
        requires cascading { AllByRecursion (λ key. key.0.namespace ≡ Cascading) (map.entries self) }
        ensures { IfOk result (λ found. found ≡ (if all_fit point.now self then Some (whole point.now self) else None)) }
    {
        let names = Behind {
            alloc: self.keys.allocator(),
            point,
        };
        match self.keys.renamed(&names)? {
            Some(keys) => Ok(Some(KeySet { keys })),
            None => Ok(None),
        }
    }
}

/// Puts names behind a point.
#[derive(Drop)]
struct Behind<'a> {
    alloc: Global,
    point: &'a KeyName,
}

impl<'a> Renames<KeyName> for Behind<'a> {
    ghost takes = { λ _ name. name.namespace ≡ Cascading };

    ghost has_other = { λ names name. has_whole names.point.now name };

    ghost other = { λ names name. joined names.point.now name };

    ghost keeps_order = { λ names x y first second less. joined_order names.point.now x y first second less };

    fn rename(&self, name: &mut KeyName) -> Result<bool, Memory> {
        let nothing = KeyName::root(self.alloc, Namespace::Cascading);
        match mem::replace(name, nothing).joined_onto(self.point) {
            Ok(whole) => {
                *name = whole;
                Ok(true)
            }
            Err(NameFault::Memory) => Err(AllocError),
            Err(_) => Ok(false),
        }
    }
}
