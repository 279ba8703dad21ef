//! Laws of the rounds of a load. A call does nothing: its clauses are the laws.
ghost use Rattle.sal_script_laws.specs.Numbers as numbers;
ghost use Rattle.sal_script_laws.specs.Rounds as rounds;

/// There is no row at or below an entry that no round put, nor at the list itself.
pub fn entries_stand_alone()
    ensures entries { rounds.IsAbsent }
    ensures list { rounds.HasNoList }
{}

/// After other rounds, a round whose entry is new is the next commit, whatever its base is.
pub fn rounds_are_done()
    ensures { rounds.IsDecided }
{}

/// Rounds that put different entries leave three rows each, and the numbers that they put.
pub fn rounds_are_counted()
    ensures { rounds.RoundsAreCounted }
{}

/// A transaction takes the put of a round.
pub fn puts_are_taken()
    ensures { rounds.IsAccepted }
{}

/// The path and the value of a round are read as the path and the rows of its put.
pub fn rounds_are_read()
    ensures path { rounds.PathIsRead }
    ensures rows { rounds.DataIsRead }
{}

/// Each round of each client has a different key, and its key and number have 32 bits.
pub fn rounds_have_keys()
    ensures differ { rounds.KeysDiffer }
    ensures short { rounds.AreShort }
{}

/// Rounds with new entries stay different; each adds its number, and all together add the numbers after the start.
pub fn rounds_add_up()
    ensures distinct { rounds.StayDistinct }
    ensures grows { rounds.SumGrows }
    ensures all { rounds.SumsAreAll }
{}

/// In each order of its clients' calls a load gives the same numbers, so its summary is one text.
pub fn loads_come_to_one()
    ensures numbers { numbers.LoadsComeToOne }
    ensures text { numbers.SummariesAreOne }
{
    rounds_are_done();
    puts_are_taken();
    rounds_are_read();
    rounds_have_keys();
    rounds_add_up();
    rounds_are_counted();
}
