//! A whole box, with a leaf of each type and nodes of each kind. Each function does nothing: its contract is computed from the definitions of
//! `is_table`, `read_data` and `read_script`.
ghost use Rattle.std.specs.Prelude.{◌≡◌, ◌++◌, ◌∷◌, [], Ok, Some, true, codes};
ghost use Rattle.sal_schema_of_table.specs.Whole.{is_table};
ghost use Rattle.sal_data.specs.Read.{read_data};
ghost use Rattle.sal_script.specs.Json.{data_of};
ghost use Rattle.examples_worked.specs.BoxCases as case;

/// The table of the box is that of a schema, and the text is its tree.
pub fn a_box_is_written()
    ensures table { is_table case.table ≡ true }
    ensures text { data_of (codes case.front ++ 195 ∷ 169 ∷ codes case.back) ≡ Some case.tree }
{}

/// The tree is read as its rows, with a number in both unions; and so are texts in both.
pub fn a_box_is_read()
    ensures whole { read_data case.table [] case.tree ≡ Ok case.rows }
    ensures texts { read_data case.table [] case.texts ≡ Ok case.text_rows }
{}
