//! Laws of configurations. Each function does nothing; its contract is the law.
ghost use Rattle.sal_config_laws.specs.Configurations.{ConfigurationsHaveNoState, WritesLeaveNoState};

/// Operations that are not refused give a configuration without state data from one without.
pub fn writes_leave_no_state()
    ensures { WritesLeaveNoState }
{}

/// In each log whose submissions are lawful over the bases of their transactions: if the configurations have no state data at the opening, they
/// have none at any commit. Both refer to the present version of the schema, after any number of upgrades; the openings are read by version 0.
pub fn configurations_have_no_state()
    ensures { ConfigurationsHaveNoState }
{}
