//! The services of the hub.
use sal_mount::Mounts;
use sal_note::Notes;
use sal_rpc::Router;

/// The services, each with the state of its own calls.
pub(crate) struct Services {
    pub(crate) mounts: Mounts,
    pub(crate) router: Router,
    pub(crate) notes: Notes,
}

impl Drop for Services {
    fn drop(self) {
        let Services {
            mounts: _,
            router: _,
            notes: _,
        } = self;
    }
}
