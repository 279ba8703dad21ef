//! Laws of the definitions. A call does nothing: its clauses are the laws.
ghost use Rattle.sal_data.specs.Laws.{ReadsAgain, ReadsAsWritten, ReadsWhole, TreesReadAsWritten};
ghost use Rattle.sal_data.specs.Texts.{TextsReadAgain, TextsReadWhole};

/// The JSON value of the rows of a tree at and below a path reads there as these rows.
pub fn rows_read_as_written()
    ensures rows { ReadsAsWritten }
    ensures trees { TreesReadAsWritten }
{}

/// Rows that were read are such rows: in order, valid for the schema, and with values that read again. So their JSON
/// value reads as the same rows. The JSON value read first must have each name once in its object, and its
/// strings must be bytes.
pub fn rows_that_were_read_are_whole()
    ensures whole { ReadsWhole }
    ensures again { ReadsAgain }
{}

/// The same for a JSON value that was read from a text, without a condition.
pub fn rows_of_texts_are_whole()
    ensures whole { TextsReadWhole }
    ensures again { TextsReadAgain }
{}
