//! Texts of at most 64 bytes.

ghost use Rattle.std.specs.Prelude.{◌≡◌, ◌≤◌, length, IfOk, Some, refl};
ghost use Rattle.std.specs.Str.{bytes_eq};
ghost use Rattle.std.specs.Cmp.{partial_order_from_agreeing_total, partial_equiv_from_equiv};
ghost use Rattle.std.specs.Cmp.Lexicographic.{nat_list_cmp_total, nat_list_eq_equiv, texts_ties};
ghost use Rattle.rc_values.specs.Ranks.{text_cmp};

use rc_tuple::Memory;
use std::alloc::Global;
use std::cmp::Ordering;
use std::marker::Model;

/// The most bytes of a text.
pub const MAX_LEN: usize = 64;

/// A text of 0 to 64 bytes, which contracts see as the list of its bytes. Texts are ordered by their bytes.
#[derive(Drop, Debug)]
pub struct Name64 {
    bytes: Vec<u8>,
}

impl Model for Name64 {
    ghost use Rattle.std.specs.Prelude.{List, ℕ, ◌≤◌, length};

    ghost Value = { List ℕ };

    ghost view = { λ text. text.bytes.items };

    ghost invariant = { λ text. length text.bytes.items ≤ 64 };
}

impl Name64 {
    /// The text of these bytes.
    pub fn new(alloc: Global, bytes: &[u8]) -> Result<Self, Memory>
        requires { length bytes.now ≤ 64 }
        ensures { IfOk result (λ text. text ≡ bytes.now) }
    {
        let bytes = Vec::from_slice(alloc, bytes)?;
        Ok(Name64 { bytes })
    }

    /// The bytes, in order.
    pub fn bytes(&self) -> &[u8]
        ensures bytes { result.now ≡ self.now }
        ensures short { length self.now ≤ 64 }
    {
        &self.bytes
    }
}

impl PartialEq for Name64 {
    ghost eq = { bytes_eq };

    ghost laws = { partial_equiv_from_equiv nat_list_eq_equiv };

    fn eq(&self, other: &Self) -> bool {
        self.bytes() == other.bytes()
    }
}

impl Eq for Name64 {
    ghost laws = { nat_list_eq_equiv };
}

impl PartialOrd for Name64 {
    ghost partial_cmp = { λ t u. Some (text_cmp t u) };

    ghost laws = { partial_order_from_agreeing_total text_cmp nat_list_cmp_total (λ t u. refl) texts_ties };

    fn partial_cmp(&self, other: &Self) -> Option<Ordering> {
        Some(self.cmp(other))
    }
}

impl Ord for Name64 {
    ghost cmp = { text_cmp };

    ghost total = { nat_list_cmp_total };

    ghost matches_partial_cmp = { λ t u. refl };

    ghost matches_eq = { texts_ties };

    fn cmp(&self, other: &Self) -> Ordering {
        self.bytes().cmp(&other.bytes())
    }
}
