//! Laws of prepared scripts.
ghost use Rattle.sal_prepare.specs.NextEpoch.{EpochsReadOn};
ghost use Rattle.sal_prepare.specs.Loads as loads;
ghost use Rattle.sal_prepare.specs.Openings.{WorldsAreSound};

use sal_versions::laws::loads_have_one_version;

/// The script of a load is always a script, for any two numbers: its module is read, the modules build the table of
/// `LoadExamples` of `sal_script`, and its opening trees, which are empty, have no fault. A call does nothing.
pub fn loads_are_prepared()
    ensures { loads.LoadsArePrepared }
{
    loads_have_one_version();
}

/// If a script is prepared, the openings of its domains are closed by their schemas: data read at the root of a
/// tree are whole. So a hub is opened over them, and stays closed (`Hub::stays_closed`). The condition is that the values are
/// JSON as a text can have it, as those of a script are. A call does nothing.
pub fn openings_are_closed()
    ensures { WorldsAreSound }
{
    sal_data::laws::rows_that_were_read_are_whole();
}

/// The versions of the next epoch's world are those from the present one on, and the last ones stay.
pub fn epochs_read_on()
    ensures { EpochsReadOn }
{}
