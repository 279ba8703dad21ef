//! Laws of operations under versions of a schema. Each function does nothing; its contract is the law.
ghost use Rattle.sal_rules.specs.Versions.{OperationsStay, RefusalsStay};

/// An operation for a version of a schema is an operation for each later version, which refuses it over the same trees and for the same
/// cause.
pub fn operations_stay_lawful()
    ensures operations { OperationsStay }
    ensures refusals { RefusalsStay }
{}
