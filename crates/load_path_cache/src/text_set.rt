//! Sets of texts.
ghost use Rattle.std.specs.Prelude.{◌≡◌, IfOk};
ghost use Rattle.std.specs.FinSet as set;

use bs_outside::{NoMemory, Text};
use std::alloc::Global;
use std::collections::BTreeSet;
use std::marker::Model;

/// Texts, of which any is found through an index. Contracts see the finite set.
#[derive(Drop, Debug)]
pub struct TextSet {
    texts: BTreeSet<Text>,
}

impl Model for TextSet {
    ghost use Rattle.std.specs.Ordering.{nat_cmp};
    ghost use Rattle.std.specs.Cmp.Lexicographic.{slice_cmp};
    ghost use Rattle.std.specs.FinSet as set;
    ghost use Rattle.std.specs.Coded.{coded_ℕ, coded_list};

    ghost Value = { set.FinSet (slice_cmp nat_cmp) };

    ghost coded = { set.code (coded_list coded_ℕ) };

    ghost view = { λ a. set.from_list a.texts.keys };
}

impl TextSet {
    /// The texts of the list, copied.
    pub fn from_texts(alloc: Global, texts: &[Text]) -> Result<TextSet, NoMemory>
        ensures { IfOk result (λ made. made ≡ set.from_list texts.now) }
    {
        let mut members = BTreeSet::new(alloc);
        for text in texts {
            members.insert(text.copy(alloc)?)?;
        }
        Ok(TextSet { texts: members })
    }

    /// Whether the text is one of them.
    pub fn contains(&self, text: &Text) -> bool
        ensures { result ≡ set.contains self.now text.now }
    {
        self.texts.contains(text)
    }
}
