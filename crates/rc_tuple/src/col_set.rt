ghost use Rattle.std.specs.Prelude.{◌≡◌, ℕ, ◌<◌, ◌≤◌, ◌==◌, ◌↔◌, [], length, slice_get, IsTrue};
ghost use Rattle.std.specs.Ordering.{nat_cmp};
ghost use Rattle.rc_tuple.specs.RisingSet.{In, gather};
ghost use Rattle.rc_tuple.specs.ColSet.{IsColSet, has, with_column, union, inter, minus, is_within, rank};

use std::marker::Model;

/// One more than the greatest column number.
pub const MAX_COLS: u8 = 32;

/// A set of column numbers below `MAX_COLS`, which contracts see as the rising list of them.
#[derive(Clone, Copy, Debug)]
pub struct ColSet {
    mask: u32,
}

impl Model for ColSet {
    ghost use Rattle.std.specs.Prelude.{List, ℕ, ◌<◌, ◌^◌};
    ghost use Rattle.rc_tuple.specs.ColSet.{columns_of, mask_of};

    ghost Value = { List ℕ };

    ghost view = { λ a. columns_of a.mask };

    ghost invariant = { λ a. a.mask < 2 ^ 32 };

    ghost inverse = { λ xs. record { mask = mask_of xs } };

    ghost use Rattle.std.proofs.Common.{ap};
    ghost use Rattle.rc_tuple.specs.ColSetLaws.{mask_of-columns_of};
    ghost use Rattle.rc_tuple.specs.declared.col_set.ColSet.TheInside.{Inside};

    ghost inverse_ok = { λ a h. ap (λ (m : ℕ). let r : Inside = record { mask = m } in r) (mask_of-columns_of a.mask h) };
}

impl ColSet {
    /// The set without columns.
    pub fn empty() -> Self
        ensures { result ≡ [] }
    {
        ColSet { mask: 0 }
    }

    /// The set of the columns of a list.
    pub fn from_list(cols: &[u8]) -> ColSet
        requires { (c : ℕ) → In c cols.now → c < 32 }
        ensures value { result ≡ gather nat_cmp cols.now }
        ensures set { IsColSet result }
    {
        let mut set = ColSet::empty();
        for col in cols {
            set = set.with(*col);
        }
        set
    }

    /// The set with one more column.
    pub fn with(self, col: u8) -> ColSet
        requires { col < 32 }
        ensures value { result ≡ with_column self col }
        ensures set { IsColSet result }
    {
        ColSet {
            mask: self.mask | (1 << col),
        }
    }

    /// The columns of either set.
    pub fn union(self, other: ColSet) -> ColSet
        ensures value { result ≡ union self other }
        ensures set { IsColSet result }
    {
        ColSet {
            mask: self.mask | other.mask,
        }
    }

    /// The columns of both sets.
    pub fn inter(self, other: ColSet) -> ColSet
        ensures value { result ≡ inter self other }
        ensures set { IsColSet result }
    {
        ColSet {
            mask: self.mask & other.mask,
        }
    }

    /// The columns of the first set that the second has not.
    pub fn minus(self, other: ColSet) -> ColSet
        ensures value { result ≡ minus self other }
        ensures set { IsColSet result }
    {
        ColSet {
            mask: self.mask & !other.mask,
        }
    }

    /// Whether the column is in the set.
    pub fn has(self, col: u8) -> bool
        ensures found { result ≡ has self col }
        ensures set { IsColSet self }
    {
        col < MAX_COLS && (self.mask >> col) & 1 == 1
    }

    /// Whether each column of the set is one of the other's.
    pub fn within(self, other: ColSet) -> bool
        ensures found { result ≡ is_within self other }
        ensures set { IsColSet self }
    {
        self.mask & !other.mask == 0
    }

    /// Whether both sets have the same columns.
    pub fn equals(self, other: ColSet) -> bool
        ensures { IsTrue result ↔ (self ≡ other) }
    {
        self.mask == other.mask
    }

    /// How many columns of the set are below `col`, counted at once: the bits below it.
    pub fn rank(self, col: u8) -> u32
        requires { col ≤ 32 }
        ensures value { result ≡ rank self col }
        ensures bound { result ≤ col }
        ensures set { IsColSet self }
    {
        (u64::from(self.mask) & ((1u64 << col) - 1)).count_ones()
    }

    /// How many columns the set has, at most `MAX_COLS`.
    pub fn len(self) -> u32
        ensures value { result ≡ length self }
        ensures bound { result ≤ 32 }
        ensures set { IsColSet self }
    {
        self.mask.count_ones()
    }

    /// Whether the set has no column.
    pub fn is_empty(self) -> bool
        ensures { result ≡ (length self == 0) }
    {
        self.within(ColSet::empty())
    }

    /// The column at a place, rising; `None` exactly where the place is not below `len`.
    #[tactic(auto, using(crate::specs::ColSetLaws::rank_more))]
    pub fn nth(self, place: u32) -> Option<u8>
        ensures value { result ≡ slice_get self place }
        ensures set { IsColSet self }
    {
        let _mask = self.mask;
        let mut before = 0;
        for k in 0..MAX_COLS {
            if self.has(k) {
                if before == place {
                    return Some(k);
                }
                before += 1;
            }
        }
        None
    }
}
