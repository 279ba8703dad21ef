//! A client's listener with its mirror.
ghost use Rattle.std.specs.Prelude.{◌≡◌, IfOk};
ghost use Rattle.sal_client.specs.Followers.{Advances};

use crate::fault::LocalResult;
use crate::wish::Target;
use sal_hub::ListenerId;
use sal_listen::{Mirror, MirrorFault};
use sal_rows::{Batch, Opened};
use sal_script::StepReply;
use sal_types::{Duplicate, NoMemory, Path, Store};
use std::alloc::Global;

/// A listener of a client, and its mirror of the rows at the path, updated by the batches that the client takes.
#[derive(Drop)]
pub struct Follower {
    pub id: ListenerId,
    pub store: Store,
    pub path: Path,
    pub mirror: Mirror,
}

impl Follower {
    /// The listener, with a mirror of its snapshot.
    pub(crate) fn of(
        alloc: Global,
        id: ListenerId,
        target: &Target,
        opened: &Opened,
    ) -> Result<Self, NoMemory>
        ensures { IfOk result (λ f. f ≡ record { id = id; store = target.now.store; path = target.now.path; mirror = record { version = opened.now.version; rows = opened.now.rows } }) }
    {
        let mirror = Mirror::open(alloc, opened)?;
        let path = target.path.copy()?;
        Ok(Follower {
            id,
            store: target.store,
            path,
            mirror,
        })
    }

    /// Advances to the end of the batch, which begins at the version of the mirror.
    pub(crate) fn advance(mut self, alloc: Global, batch: &Batch) -> Result<Self, NoMemory>
        requires { self.mirror.version ≡ batch.now.from }
        ensures { IfOk result (Advances batch.now self) }
    {
        match self.mirror.take(alloc, batch) {
            Ok(()) => Ok(self),
            Err(MirrorFault::NoMemory) => Err(NoMemory),
            Err(MirrorFault::Gap { .. }) => unreachable!(),
        }
    }

    /// The reply with the mirror.
    pub(crate) fn shown(&self, alloc: Global) -> LocalResult
        ensures { IfOk result (λ r. r ≡ StepReply.Mirror self.now.id.domain self.now.path self.now.mirror.version self.now.mirror.rows) }
    {
        let path = self.path.copy()?;
        let rows = self.mirror.rows(alloc)?;
        Ok(StepReply::Mirror {
            domain: self.id.domain(),
            path,
            version: self.mirror.version(),
            rows,
        })
    }
}
