//! How a tensor is looked up by its name.

ghost use Rattle.std.specs.Prelude.{◌≡◌, nat_eq};
ghost use Rattle.std.specs.Cmp.{partial_equiv_from_equiv};
ghost use Rattle.std.specs.Cmp.Lexicographic.{pointwise, bytes_decides, nat_list_eq_equiv};
ghost use Rattle.std.specs.Hash as fed;
ghost use Rattle.std.specs.Str.{bytes_eq};
ghost use Rattle.std.proofs.Common.{ap};

use dt_base::Name;
use indexmap::Equivalent;
use std::hash::{Hash, Hasher};

/// The bytes that a name is looked up by.
#[derive(Clone, Copy, PartialEq, Eq, Hash)]
pub struct Key<'a>(pub &'a [u8]);

impl Equivalent<Name> for Key<'_> {
    ghost equivalent = { λ q k. bytes_eq q.0.now k };

    ghost respects_hash = { λ q k h. ap (fed.slice fed.u8) ((bytes_decides q.0.now k).0 h) };

    ghost respects_eq = { λ q x y. nat_list_eq_equiv.congr q.0.now x y };

    fn equivalent(&self, key: &Name) -> bool {
        self.0 == key.as_slice()
    }
}
