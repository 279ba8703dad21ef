//! Laws of the versions of a domain's schema. A call does nothing: its clause is the law.
ghost use Rattle.sal_versions.specs.Loads.{LoadsHaveOneVersion};
ghost use Rattle.sal_versions.specs.Versions.{VersionsAreInOrder};

/// Each version of the schema of a domain extends the one before.
pub fn versions_are_in_order()
    ensures { VersionsAreInOrder }
{}

/// The module of a load is read and built, and has one version: its table is the one in `LoadExamples` of `sal_script`.
pub fn loads_have_one_version()
    ensures { LoadsHaveOneVersion }
{}
