//! A law of the audit. A call does nothing: its clause is the law.
ghost use Rattle.sal_audit.specs.Laws.{InputsOfReportsAreYes};

use sal_verdict::laws;

/// An input of a script that `run` accepts and of the output of `run`, or of `sim` in any order, gets `yes`.
pub fn own_inputs_are_said_yes_to()
    ensures { InputsOfReportsAreYes }
{
    laws::own_reports_are_said_yes_to();
}
