//! Laws of the definitions. A call does nothing: its clauses are the laws.
ghost use Rattle.sal_near.specs.Near.{NearIsClosed, StateIsNear};

/// If a closed tree is patched by cells that fit their paths, the tree after is closed exactly if all near the patches is whole.
pub fn near_is_closed()
    ensures { NearIsClosed }
{}

/// If a tree without state data is patched, the tree after has some exactly if a patch set some.
pub fn state_is_near()
    ensures { StateIsNear }
{}
