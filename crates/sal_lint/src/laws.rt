//! Laws of the definitions. A call does nothing: its clause is the law.
ghost use Rattle.sal_lint.specs.Places.{LinesAreCounted};

/// The line of a byte is one more than the number of line feeds before it.
pub fn lines_are_counted()
    ensures { LinesAreCounted }
{}
