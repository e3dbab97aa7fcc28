//! What the blocks of a set are.

ghost use Rattle.std.specs.Prelude.{List};
ghost use Rattle.range_set_blaze.specs.Runs.{Interval};
ghost use Rattle.range_set_blaze.specs.Selection.{Selection};
ghost use Rattle.ip_sets.specs.Blocks.{AreFewest, AreMaximalBlocks};

/// No list of blocks with the same addresses is shorter than the list of the maximal blocks of a
/// set.
pub fn maximal_blocks_are_fewest()
    ensures { (selected : Selection) (blocks : List Interval)
        → AreMaximalBlocks selected blocks → AreFewest selected blocks }
{}
