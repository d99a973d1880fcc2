//! Laws of the ranks of texts.

ghost use Rattle.std.specs.Prelude.{◌≡◌, ℕ, ◌<◌, ◌↔◌, List, IsSome, Some, slice_get};
ghost use Rattle.std.specs.declared.cmp.Ordering.TheVariants.{Less};
ghost use Rattle.rc_tuple.specs.RisingSet.{In, IsRising};
ghost use Rattle.rc_values.specs.Ranks.{text_cmp, texts_of, rank_of};

/// A text has a rank among some texts exactly where it is one of them, and in a rising list of texts the text
/// with its rank is that text.
pub fn ranks_are_places()
    ensures known { (texts : List (List ℕ)) (t : List ℕ) → IsSome (rank_of (texts_of texts) t) ↔ In t texts }
    ensures rising { (texts : List (List ℕ)) → IsRising text_cmp (texts_of texts) }
    ensures back { (texts : List (List ℕ)) (t : List ℕ) (rank : ℕ) → IsRising text_cmp texts
        → (rank_of texts t ≡ Some rank) ↔ (slice_get texts rank ≡ Some t) }
{}

/// In a rising list of texts ranks are ordered as their texts are by bytes, and equal exactly where their texts
/// are.
pub fn ranks_keep_order()
    ensures order { (texts : List (List ℕ)) (t u : List ℕ) (m n : ℕ) → IsRising text_cmp texts
        → rank_of texts t ≡ Some m → rank_of texts u ≡ Some n → (m < n) ↔ (text_cmp t u ≡ Less) }
    ensures same { (texts : List (List ℕ)) (t u : List ℕ) (m n : ℕ)
        → rank_of texts t ≡ Some m → rank_of texts u ≡ Some n → (m ≡ n) ↔ (t ≡ u) }
{}
