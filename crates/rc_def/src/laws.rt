//! What holds of DEF files. Nothing is computed here.

ghost use Rattle.rc_def.specs.Cuts.{CutsAreRefused};
ghost use Rattle.rc_def.specs.Whole.{AcceptsFiles, FilesSayOne};

/// A text is accepted exactly where its tokens are statements of DEF up to END DESIGN, and gives the design that those say.
pub fn accepted_are_files()
    ensures { AcceptsFiles }
{}

/// A file says one design.
pub fn files_say_one()
    ensures { FilesSayOne }
{}

/// A text that is accepted is so up to where its END DESIGN stops, with whatever of the rest, and no shorter front of it is.
pub fn cuts_are_refused()
    ensures { CutsAreRefused }
{}
