//! What holds of entries, items and caches, over the definitions alone.
ghost use Rattle.std.specs.Prelude.{List};
ghost use Rattle.bs_outside.specs.Cache.{Cache, CacheItem};
ghost use Rattle.bs_outside.specs.SourceTree.{SourceTree};
ghost use Rattle.cache_meaning.specs.Fits.{IsWhole, AreToldApart, PrefixesFit, CacheFits, AllPrefixesFit, EachMomentFits};

/// Each prefix of a whole item fits, where the tree's files are told apart.
pub fn whole_items_fit()
    ensures { (tree : SourceTree) (item : CacheItem) → AreToldApart tree → IsWhole tree item → PrefixesFit tree item }
{}

/// Where what stood at the start fits, and each prefix of each item since does, the cache fits at each moment, and after a crash at each.
pub fn moments_fit()
    ensures { (tree : SourceTree) (start : Cache) (entry exit : List CacheItem) → CacheFits tree start → AllPrefixesFit tree exit → EachMomentFits tree start entry exit }
{}
