//! Laws of the definitions. A call does nothing: its clauses are the laws.
ghost use Rattle.sal_json_laws.specs.Laws.{ElementsAreJson, MembersAreJson, ReadsAsJson, TestsJson, TextsAreBytes, TextsReadAsJson};

/// A JSON value that was read has each name once in its object, and its strings are bytes.
pub fn what_is_read_is_json()
    ensures bytes { ReadsAsJson }
    ensures utf8 { TextsAreBytes }
    ensures texts { TextsReadAsJson }
{}

/// The members and elements of such a value are such values.
pub fn parts_are_json()
    ensures members { MembersAreJson }
    ensures elements { ElementsAreJson }
{}

/// The test of such a value is exact.
pub fn json_is_tested()
    ensures { TestsJson }
{}
