//! Laws of the definitions. A call does nothing: its clauses are the laws.
ghost use Rattle.sal_pathtext.specs.Laws.{WrittenReads, WrittenApart, ReadIsData, ReadIsReadable, ReadsAgain};

/// The text of a path reads as this path, and two paths with one text are equal.
///
/// This holds for each path that fits the schema, is not inside a message, and has at most 32 steps, if the text of each of its values
/// reads as that value. That of a value of a union does not if an earlier member of the union reads it as its own.
pub fn written_paths_read()
    ensures path { WrittenReads }
    ensures apart { WrittenApart }
{}

/// A path that was read, written and read again is the same path.
///
/// For a path that was read fits the schema, is not inside a message, and has at most 32 steps, and the text of each of its
/// values reads as that value.
pub fn read_paths_read_again()
    ensures of_data { ReadIsData }
    ensures readable { ReadIsReadable }
    ensures again { ReadsAgain }
{}
