//! A count of the bytes taken from images.
ghost use Rattle.std.specs.Prelude.{◌≡◌, ◌+◌, ◌-◌, ◌^◌, ◌<◌, min};

use std::marker::Model;
use std::sync::ledger::{Blank, Book, Ledger, Share};

/// How many bytes were taken from images. Only `tick` changes it, and only `Image::at` calls that.
#[derive(Drop)]
pub struct Steps<L: Ledger> {
    book: Book<L>,
    share: Share<L>,
    shown: u64,
}

impl<L: Ledger> Model for Steps<L> {
    ghost use Rattle.std.specs.Prelude.{ℕ, ◌≡◌, ◌<◌, ◌-◌, ◌^◌, min};

    ghost Value = { ℕ };

    ghost view = { λ s. s.book.total };

    ghost invariant = { λ s. record { counts : 0 < s.share.parts; told : s.shown ≡ min s.book.total (2 ^ 64 - 1) } };
}

impl<L: Ledger> Steps<L> {
    /// No byte was taken yet. The blank ledger is the one that `L` names, of at least one part.
    pub fn new(blank: Blank) -> Steps<L>
        requires name { blank.name ≡ L.name }
        requires parts { blank.parts ≡ L.parts }
        requires some { 0 < L.parts }
        ensures { result ≡ 0 }
    {
        let (book, share) = blank.open::<L>();
        Steps {
            book,
            share,
            shown: 0,
        }
    }

    /// One byte more was taken.
    pub(crate) fn tick(&mut self)
        ensures { self.new ≡ self.old + 1 }
    {
        self.book.add(&mut self.share, 1);
        self.shown = self.shown.saturating_add(1);
    }

    /// How many bytes were taken, or 2^64 - 1 where more were.
    pub fn taken(&self) -> u64
        ensures { result ≡ min self.now (2 ^ 64 - 1) }
    {
        self.shown
    }
}
