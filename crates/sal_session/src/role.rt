//! What a session has: a broker, a stand-by, or nothing.
ghost use Rattle.std.specs.Prelude.{◌≡◌};
ghost use Rattle.sal_session.specs.Sessions.{is_open};

use sal_cluster::{Leader, StandBy};

/// A broker with the numbers of its commits in a stream, a stand-by that follows such a stream, or nothing.
#[derive(Drop)]
pub enum Role {
    Closed,
    Broker { leader: Leader },
    StandBy { standby: StandBy },
}

impl Role {
    /// Whether there is a broker or a stand-by.
    pub(crate) fn is_open(&self) -> bool
        ensures { result ≡ is_open self.now }
    {
        match self {
            Role::Closed => false,
            Role::Broker { .. } | Role::StandBy { .. } => true,
        }
    }
}
