//! What holds of rule files. Nothing is computed here.

ghost use Rattle.rc_rules.specs.LookUp.{RatesAreSmall};
ghost use Rattle.rc_rules.specs.File.{AcceptsFiles, FilesSayOne};

/// A text is accepted exactly where its tokens are statements of rule files in turn, up to END RULES, and as what these say.
pub fn accepted_are_files()
    ensures { AcceptsFiles }
{}

/// A rule file says one thing.
pub fn files_say_one()
    ensures { FilesSayOne }
{}

/// What a face of a layer with rules is rated at is below 2^57.
pub fn rates_are_small()
    ensures { RatesAreSmall }
{}
