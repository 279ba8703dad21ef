//! Laws of the definitions. A call does nothing: its clauses are the laws.
ghost use Rattle.sal_json.specs.Laws.{IsOfItsType, IsOfItsTypeAsKey, ReadsBack, ReadsBackAsKey};

/// A value that was read is of its type.
pub fn values_are_of_their_types()
    ensures json { IsOfItsType }
    ensures key { IsOfItsTypeAsKey }
{}

/// What is written for a value that was read reads as this value.
pub fn values_that_were_read_are_readable()
    ensures json { ReadsBack }
    ensures key { ReadsBackAsKey }
{}
