//! Scripts of bytes that no file of a case has. A function that does nothing: its contract is computed from the definition of
//! `read_script`.
ghost use Rattle.std.specs.Prelude.{◌≡◌, ◌++◌, ◌∷◌, Err, codes};
ghost use Rattle.sal_script.specs.Script.{script_of};

/// A script with a byte that no text has is not JSON.
pub fn bytes_that_are_no_text()
    ensures { script_of (codes "{\"clients\":[{\"steps\":[[\"" ++ 255 ∷ codes "\"]]}]}") ≡ Err (codes "json") }
{}
