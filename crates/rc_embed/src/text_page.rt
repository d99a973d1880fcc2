//! Pages by which a store's plans are read.

ghost use Rattle.std.specs.Prelude.{◌≡◌, ◌≤◌, length};
ghost use Rattle.rc_embed.specs.TextPages.{AnswersPlans, part_from};

use crate::codes::{DONE, MEMORY};
use crate::opening::OpenStore;
use crate::replies::copy_over;

/// How many bytes of a text a page has room for.
pub const MAX_PART: usize = 4096;

/// A part of a text.
#[repr(C)]
#[derive(Drop)]
pub struct TextPage {
    /// Asked: the first of the bytes, from 0.
    pub at: u64,
    /// Told: how many bytes the whole text has.
    pub length: u64,
    /// Told: how many bytes were copied.
    pub count: u64,
    /// Told: these bytes.
    pub bytes: [u8; MAX_PART],
}

/// The bytes of a text from one on, as many as a page has room for.
fn part_from(text: &[u8], at: u64) -> &[u8]
    ensures part { result.now ≡ part_from text.now at }
    ensures few { length result.now ≤ 4096 }
{
    if at >= text.len() as u64 {
        return b"".as_slice();
    }
    let start = at as usize;
    let left = text.len() - start;
    if left <= MAX_PART {
        &text[start..]
    } else {
        &text[start..start + MAX_PART]
    }
}

impl OpenStore {
    /// Tells the page how many bytes the text of the store's plans has, and those from the one on that it
    /// asks for, as many as there is room for. Each call prints the plans anew.
    pub fn plans_by(&self, page: &mut TextPage) -> u32
        ensures { AnswersPlans self.now page.old page.new result }
    {
        let Ok(text) = self.plans() else {
            return MEMORY;
        };
        let Some(count) = copy_over(part_from(&text, page.at), &mut page.bytes) else {
            unreachable!()
        };
        page.length = text.len() as u64;
        page.count = count as u64;
        DONE
    }
}
