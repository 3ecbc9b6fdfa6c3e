//! What holds of scripts. Nothing is computed here.

ghost use Rattle.rc_script.specs.Whole.{AcceptsScripts, ScriptsSayOne};

/// A text is accepted exactly where its tokens are commands one after the other up to `END ;` or to its end, and gives the
/// commands that those say.
pub fn script_is_read()
    ensures { AcceptsScripts }
{}

/// A text has the commands of one script.
pub fn scripts_say_one()
    ensures { ScriptsSayOne }
{}
