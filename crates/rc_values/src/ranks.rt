//! Ranks of texts in byte order.

ghost use Rattle.std.specs.Prelude.{◌≡◌, ◌≤◌, ◌==◌, length, slice_get, option_copied, IfOk, IfSome};
ghost use Rattle.rc_tuple.specs.RisingSet.{IsRising};
ghost use Rattle.rc_values.specs.Ranks.{text_cmp, texts_of, rank_of};

use crate::Name64;
use rc_tuple::Memory;
use std::marker::Model;

/// Distinct texts, which contracts see as the list of them, rising by their bytes. The rank of a text is its place
/// in the list, from 0, so ranks are equal and ordered as their texts are (an order-preserving dictionary).
#[derive(Drop, Debug)]
pub struct Ranks {
    texts: Vec<Name64>,
}

impl Model for Ranks {
    ghost use Rattle.std.specs.Prelude.{List, ℕ};
    ghost use Rattle.rc_tuple.specs.RisingSet.{IsRising};
    ghost use Rattle.rc_values.specs.Ranks.{text_cmp};

    ghost Value = { List (List ℕ) };

    ghost view = { λ ranks. ranks.texts.items };

    ghost invariant = { λ ranks. IsRising text_cmp ranks.texts.items };
}

impl Ranks {
    /// The ranks of the texts, each of them kept once. Where memory is wanted the texts are dropped.
    pub fn build(mut texts: Vec<Name64>) -> Result<Ranks, Memory>
        ensures { IfOk result (λ ranks. ranks ≡ texts_of texts.items) }
    {
        texts.sort()?;
        texts.dedup();
        Ok(Ranks { texts })
    }

    /// The rank of the text; `None` exactly where it is none of the texts.
    pub fn rank_of(&self, text: &[u8]) -> Option<u64>
        ensures rank { result ≡ rank_of self.now text.now }
        ensures rising { IsRising text_cmp self.now }
    {
        let place = self.texts.binary_search_by(|name| name.bytes().cmp(&text));
        place.ok().map(|place| place as u64)
    }

    /// The text with the rank; `None` exactly where the rank is not below `len`.
    pub fn text_of(&self, rank: u64) -> Option<&[u8]>
        ensures text { option_copied result ≡ slice_get self.now rank }
        ensures short { IfSome result (λ text. length text.now ≤ 64) }
        ensures rising { IsRising text_cmp self.now }
    {
        let text = self.texts.get(rank as usize)?;
        Some(text.bytes())
    }

    /// How many texts there are.
    pub fn len(&self) -> u64
        ensures { result ≡ length self.now }
    {
        self.texts.len() as u64
    }

    /// Whether there is no text.
    pub fn is_empty(&self) -> bool
        ensures { result ≡ (length self.now == 0) }
    {
        self.texts.is_empty()
    }
}
