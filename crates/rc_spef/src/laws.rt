//! What holds of the definitions that the contracts cite. Nothing is computed here.

ghost use Rattle.rc_spef.specs.Laws.{HeadAndBlocks, AcceptsWhatIsSaid, SaysOneValue, SaysItsValue, ReadsBack};

/// The text of a value is what [`crate::head_text`] writes and then the blocks of its nets, as [`crate::block_text`] writes them.
pub fn head_and_blocks()
    ensures { HeadAndBlocks }
{}

/// A text is read as a value exactly where it says that value by the grammar, and so it says one value.
pub fn grammar_is_read()
    ensures accepts { AcceptsWhatIsSaid }
    ensures one { SaysOneValue }
{}

/// The text of each value that can be written says that value by the grammar, and is read back as it.
pub fn spef_reads_back()
    ensures says { SaysItsValue }
    ensures back { ReadsBack }
{}
