//! Laws of versions. Each function does nothing; its contract is the law.
ghost use Rattle.sal_schema.specs.Outlines.{OnIsTable};
ghost use Rattle.sal_schema.specs.Versions.{CountsTell, ExtendsItself, ExtendsOn, OnExtends, PathsStay, RowsStay};

/// Each table extends itself; a table that extends a later version extends the earlier one; a version with the counts of the older one is
/// the older one.
pub fn versions_are_in_order()
    ensures itself { ExtendsItself }
    ensures on { ExtendsOn }
    ensures counts { CountsTell }
{}

/// A path, and rows at a path, that fit a version fit each later one.
pub fn what_fits_stays()
    ensures paths { PathsStay }
    ensures rows { RowsStay }
{}

/// An older table, extended by the new lines of a whole table that it is part of, is the table of a schema and extends the older one.
pub fn versions_are_tables()
    ensures table { OnIsTable }
    ensures extends { OnExtends }
{}
