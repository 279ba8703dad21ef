//! Worked examples of the verdict. Each function does nothing; its contract states what the definitions give for some texts, and the proof
//! computes it.
ghost use Rattle.std.specs.Prelude.{◌≡◌, codes};
ghost use Rattle.sal_verdict.specs.declared.verdict.Verdict.TheVariants.{No, Yes};
ghost use Rattle.sal_verdict.specs.Verdicts.{by_report, line_of};

/// The line of a `no` is the one after those that the text has in common with the report.
pub fn reports_differ()
    ensures same { by_report (codes "order\ntree 0 0 {} {}\n") (codes "order\ntree 0 0 {} {}\n") ≡ Yes }
    ensures tree { by_report (codes "order\ntree 0 1 {} {}\n") (codes "order\ntree 0 0 {} {}\n") ≡ No 1 }
    ensures longer { by_report (codes "order\ntree 0 0 {} {}\nx") (codes "order\ntree 0 0 {} {}\n") ≡ No 2 }
    ensures unended { by_report (codes "order\ntree 0 0 {} {}") (codes "order\ntree 0 0 {} {}\n") ≡ No 1 }
    ensures shorter { by_report (codes "order\n") (codes "order\ntree 0 0 {} {}\n") ≡ No 1 }
{}

/// A verdict is a line.
pub fn verdicts_are_lines()
    ensures yes { line_of Yes ≡ codes "yes\n" }
    ensures no { line_of (No 10) ≡ codes "no 10\n" }
{}
