//! Worked examples of a load. Each function does nothing; its contract states what the definitions give, and the proof computes it.
ghost use Rattle.std.specs.Prelude.{◌≡◌, [], ◌∷◌, Ok, codes, map};
ghost use Rattle.sal_data.specs.Read.{read_data};
ghost use Rattle.sal_pathtext.specs.Read.{read_path};
ghost use Rattle.sal_script.specs.Load.{entry_data, entry_path, key_of, number_of, value_in};
ghost use Rattle.sal_script.specs.LoadExamples.{entry, rows, table};

/// The last client's entry of the last round of the largest load.
pub fn last_entry()
    ensures path { entry_path (key_of 3 9999) ≡ codes "/load:cell[k='3009999']" }
    ensures number { value_in 65536 3 9999 ≡ 105536 }
{}

/// The reading of its put, by the schema of the load's module: the entry, and its three rows.
pub fn an_entry_is_read()
    ensures path { read_path table (entry_path 3009999) ≡ Ok (entry 3009999) }
    ensures rows { read_data table (entry 3009999) (entry_data 3009999 105536) ≡ Ok (rows 3009999 105536) }
    ensures numbers { map number_of (rows 3009999 105536) ≡ 0 ∷ 0 ∷ 105536 ∷ [] }
{}
