//! Worked examples: a file's name in place of a module. Each function does nothing; its contract states what the definitions give, and the
//! proof computes it.
#![tactic(auto)]

ghost use Rattle.std.specs.Prelude.{◌≡◌, ◌∷◌, ◌++◌, [], Err, true, false, codes, replicate};
ghost use Rattle.sal_versions.specs.Schemas as spec;

/// Names of files, and texts that are none.
pub fn file_names()
    ensures plain { spec.is_file_name (codes "line.yang") ≡ true }
    ensures of_a_folder { spec.is_file_name (codes "../models/ietf_ip-1.1/A_0.yang") ≡ true }
    ensures longest { spec.is_file_name (replicate 250 97 ++ codes ".yang") ≡ true }
    ensures too_long { spec.is_file_name (replicate 251 97 ++ codes ".yang") ≡ false }
    ensures other_ending { spec.is_file_name (codes "line.yin") ≡ false }
    ensures ending_within { spec.is_file_name (codes "line.yang.old") ≡ false }
    ensures blank_within { spec.is_file_name (codes "my line.yang") ≡ false }
    ensures short { spec.is_file_name (codes "yang") ≡ false }
    ensures empty { spec.is_file_name [] ≡ false }
{}

/// The fault of modules of which one is a file's name. The first text with a fault is named.
pub fn told()
    ensures name { spec.table_of (codes "line.yang" ∷ []) ≡ Err (codes "module 0 file-name line.yang") }
    ensures of_a_folder { spec.table_of (codes "models/line.yang" ∷ []) ≡ Err (codes "module 0 file-name models/line.yang") }
    ensures of_a_comment { spec.table_of (codes "models//line.yang" ∷ []) ≡ Err (codes "module 0 file-name models//line.yang") }
    ensures other_ending { spec.table_of (codes "line.yin" ∷ []) ≡ Err (codes "module 0 unclosed 0") }
    ensures second { spec.table_of (codes "leaf x;" ∷ codes "line.yang" ∷ []) ≡ Err (codes "module 1 file-name line.yang") }
    ensures not_the_first { spec.table_of (codes "module m {" ∷ codes "line.yang" ∷ []) ≡ Err (codes "module 0 unclosed 9") }
    ensures of_an_upgrade { spec.statements_from 2 (codes "line.yang" ∷ []) ≡ Err (codes "module 2 file-name line.yang") }
{}
