//! Worked examples: the numbers of some loads. A call does nothing: its clauses are computed.
ghost use Rattle.std.specs.Prelude.{◌≡◌};
ghost use Rattle.sal_script_laws.specs.Numbers.{load_totals};

/// Two rounds that start after 1 put the numbers 2 to 9; one round that starts after 0 puts 1 to 4.
pub fn two_rounds()
    ensures two { load_totals 2 1 ≡ record { calls = 24; commits = 8; rows = 24; values = 44 } }
    ensures one { load_totals 1 0 ≡ record { calls = 12; commits = 4; rows = 12; values = 10 } }
{}
