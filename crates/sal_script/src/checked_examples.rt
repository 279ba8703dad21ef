//! Worked examples of checked reads. Each function does nothing; its contract states what the definitions give, and the proof
//! computes it.
ghost use Rattle.std.specs.Prelude.{◌≡◌, [], ◌∷◌, codes};
ghost use Rattle.sal_rows.specs.declared.outcome.Mode.TheVariants.{Checked, Ro, Rw, Wo};
ghost use Rattle.sal_script.specs.Moves.{Begin, ChainBegin};
ghost use Rattle.sal_script.specs.Script.{script_of};
ghost use Rattle.sal_script.specs.Examples.{plain_script};
ghost use Rattle.sal_script.specs.CheckedExamples.{checked_report, checked_script, skew, unchecked_report};

/// The member `reads` is the text `checked` or absent. Another value is a fault, after all others.
pub fn reads_read()
    ensures checked { script_of (codes "{\"reads\":\"checked\"}") ≡ Ok (checked_script [] []) }
    ensures absent { script_of (codes "{}") ≡ Ok (plain_script [] []) }
    ensures text { script_of (codes "{\"reads\":\"unchecked\"}") ≡ Err (codes "reads") }
    ensures truth { script_of (codes "{\"reads\":true}") ≡ Err (codes "reads") }
    ensures nothing { script_of (codes "{\"reads\":null}") ≡ Err (codes "reads") }
    ensures last { script_of (codes "{\"reads\":\"\",\"rules\":3}") ≡ Err (codes "rules") }
{}

/// With checked reads, a transaction that reads and writes begins in the mode `checked`. Other modes stay.
pub fn modes_of_steps()
    ensures checked { script_of (codes "{\"reads\":\"checked\",\"clients\":[{\"steps\":[[\"begin\",0,0,\"rw\"],[\"begin\",1,0,\"wo\"],[\"begin\",2,0,\"ro\"],[\"chain-begin\",0,3,\"rw\"]]}]}") ≡ Ok (checked_script ((Begin 0 0 Checked ∷ Begin 1 0 Wo ∷ Begin 2 0 Ro ∷ ChainBegin 0 3 Checked ∷ []) ∷ []) []) }
    ensures absent { script_of (codes "{\"clients\":[{\"steps\":[[\"begin\",0,0,\"rw\"]]}]}") ≡ Ok (plain_script ((Begin 0 0 Rw ∷ []) ∷ []) []) }
{}

/// Write skew: with checked reads the second client is refused, with the leaf that it read and the commit that created it.
pub fn write_skew()
    ensures checked { skew Checked ≡ codes checked_report }
    ensures unchecked { skew Rw ≡ codes unchecked_report }
{}
