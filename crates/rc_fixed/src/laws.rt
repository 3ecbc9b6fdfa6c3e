//! What holds of the definitions that the contracts cite. Nothing is computed here.
ghost use Rattle.rc_fixed.specs.Laws.{ReadsBack, GivesBack, TellsApart, IsPlain, WritesBack};

/// The text of a number is a decimal, and exactly that number.
pub fn decimal_reads_back()
    ensures { ReadsBack }
{}

/// `parse_fixed` with shift 0 gives a number back from its text, up to the largest number that it takes.
pub fn decimal_gives_back()
    ensures { GivesBack }
{}

/// No two numbers have one text.
pub fn decimal_tells_apart()
    ensures { TellsApart }
{}

/// The text of a number is plain: digits with no 0 before another, and behind them nothing, or a
/// point and up to fifteen digits of which the last isn't 0. It has at most 48 bytes.
pub fn decimal_is_plain()
    ensures { IsPlain }
{}

/// A plain text of a number is the text of that number, so that there is no second one.
pub fn decimal_writes_back()
    ensures { WritesBack }
{}
