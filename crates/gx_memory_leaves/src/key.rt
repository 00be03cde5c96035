// Keys of leaves in memory.
ghost use Rattle.std.specs.Prelude.{◌≡◌, Some, refl, IfOk};
ghost use Rattle.std.specs.Ordering.{eq_by_cmp};
ghost use Rattle.std.specs.Cmp.{po, eq_by_cmp_equiv, partial_equiv_from_equiv};
ghost use Rattle.std.specs.Cmp.Lexicographic.{nat_list_cmp_total};
ghost use Rattle.gx_ports.specs.Keyed.{key_cmp};
ghost use Rattle.gx_memory_leaves.specs.Fronts.{padded};

use crate::short::{FRONT, Short, front};
use gx_order::compare_bytes;
use gx_values::NoMemory;
use std::alloc::Global;
use std::cmp::Ordering;
use std::marker::Model;
use std::rc::RcSlice;

// the most bytes in the key itself, which takes 24 with their length, as it does with a pointer
const ROOM: usize = 22;

/// A key, seen as its bytes and in their order. Most keys differ in the first eight, which stand in
/// the key itself: a comparison seldom follows a pointer. A short key has no memory of its own.
#[derive(Drop)]
pub struct Key {
    form: KeyForm,
}

// Both forms have the first eight bytes at one place, so that a comparison needn't look for them.
#[derive(Drop)]
enum KeyForm {
    Short(Short<ROOM>),
    // the first eight bytes, and then all, which copies of the key share
    Long([u8; FRONT], RcSlice<u8>),
}

impl Model for Key {
    ghost use Rattle.std.specs.Prelude.{List, ℕ};
    ghost use Rattle.gx_memory_leaves.specs.Forms.{key_bytes, HasFront};

    ghost Value = { List ℕ };

    ghost view = { λ k. key_bytes k.form };

    ghost invariant = { λ k. HasFront k.form };
}

impl Key {
    /// The key with these bytes. `NoMemory`: there was none for it.
    pub fn from_slice(alloc: Global, bytes: &[u8]) -> Result<Key, NoMemory>
        ensures { IfOk result (λ key. key ≡ bytes.now) }
    {
        let form = match Short::from_slice(bytes) {
            Some(short) => KeyForm::Short(short),
            None => KeyForm::Long(front(bytes), RcSlice::from_slice(alloc, bytes)?),
        };
        Ok(Key { form })
    }

    /// The same key again. `NoMemory`: there was none to count it.
    pub fn copy(&self) -> Result<Key, NoMemory>
        ensures { IfOk result (λ key. key ≡ self.now) }
    {
        let form = match &self.form {
            KeyForm::Short(short) => KeyForm::Short(short.copy()),
            KeyForm::Long(front, bytes) => KeyForm::Long(*front, bytes.clone()?),
        };
        Ok(Key { form })
    }

    /// All the bytes.
    pub fn as_slice(&self) -> &[u8]
        ensures { result.now ≡ self.now }
    {
        match &self.form {
            KeyForm::Short(short) => short.as_slice(),
            KeyForm::Long(_, bytes) => bytes.as_slice(),
        }
    }

    // The first eight bytes, with zeros behind fewer.
    fn front(&self) -> [u8; FRONT]
        ensures { result ≡ padded 8 self.now }
    {
        match &self.form {
            KeyForm::Short(short) => short.front(),
            KeyForm::Long(front, _) => *front,
        }
    }
}

impl PartialEq for Key {
    ghost eq = { eq_by_cmp key_cmp };

    ghost laws = { partial_equiv_from_equiv (eq_by_cmp_equiv nat_list_cmp_total) };

    fn eq(&self, other: &Key) -> bool {
        self.cmp(other).is_eq()
    }
}

impl Eq for Key {
    ghost laws = { eq_by_cmp_equiv nat_list_cmp_total };
}

impl PartialOrd for Key {
    ghost partial_cmp = { λ x y. Some (key_cmp x y) };

    ghost laws = { po nat_list_cmp_total (λ x y. refl) };

    fn partial_cmp(&self, other: &Key) -> Option<Ordering> {
        Some(self.cmp(other))
    }
}

impl Ord for Key {
    ghost cmp = { key_cmp };

    ghost total = { nat_list_cmp_total };

    ghost matches_partial_cmp = { λ x y. refl };

    ghost matches_eq = { λ x y. refl };

    fn cmp(&self, other: &Key) -> Ordering {
        let order = compare_bytes(&self.front(), &other.front());
        if order.is_ne() {
            order
        } else {
            compare_bytes(self.as_slice(), other.as_slice())
        }
    }
}
