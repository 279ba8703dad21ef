//! The steps of a client for mounts.
ghost use Rattle.sal_script.specs.Moves.{Mount, MountAt};
ghost use Rattle.sal_client.specs.Leaving.{Leaves};
ghost use Rattle.sal_client.specs.declared.wish.Wish.TheVariants.{Mount as MountCall};

use crate::answers::{accepted, answer_to, mounted};
use crate::client::ClientState;
use crate::messages::path_at;
use crate::readers::Readers;
use crate::wish::{CallResult, Wish, Wished};
use sal_hub::{Hub, laws};
use sal_types::{Path, Str};
use std::alloc::Global;
use std::snapshot::Snapshot;

/// A call for mounts that a client is ready to make. Only contracts use the texts of paths.
#[derive(Drop)]
pub enum MountWish {
    /// Mounts the device at the path.
    Mount {
        device: u32,
        text: Snapshot<Str>,
        path: Path,
    },
    /// Unmounts the domain.
    Unmount {
        domain: u32,
    },
    /// Asks which domain is mounted at the path.
    MountAt {
        text: Snapshot<Str>,
        path: Path,
    },
}

impl ClientState {
    ghost use Rattle.sal_client.specs.Clients.{IsSound};
    ghost use Rattle.sal_client.specs.Wishes.{Wants};

    /// To mount the device at the path of the text, if it is one.
    pub(crate) fn mount_wish(
        &self,
        alloc: Global,
        readers: &Readers,
        device: u32,
        text: &Str,
    ) -> Wished
        ensures { Wants readers.now self.now (Mount device text.now) result }
    {
        let path = path_at(alloc, readers.own(), text)?;
        Ok(Wish::Mount(MountWish::Mount {
            device,
            text: Snapshot::of(text),
            path,
        }))
    }

    /// To ask which domain is mounted at the path of the text, if it is one.
    pub(crate) fn mount_at_wish(&self, alloc: Global, readers: &Readers, text: &Str) -> Wished
        ensures { Wants readers.now self.now (MountAt text.now) result }
    {
        let path = path_at(alloc, readers.own(), text)?;
        Ok(Wish::Mount(MountWish::MountAt {
            text: Snapshot::of(text),
            path,
        }))
    }

    /// Makes the call for mounts. It changes no slot.
    pub(crate) fn call_mount(&self, alloc: Global, hub: &mut Hub, wish: MountWish) -> CallResult
        requires sound { IsSound hub.old self.now }
        ensures { Leaves (MountCall wish) hub.old self.now hub.new self.now result }
    {
        laws::tokens_last();
        match wish {
            MountWish::Mount { device, path, .. } => {
                answer_to(accepted(hub.mount(alloc, self.number, &path, device)))
            }
            MountWish::Unmount { domain } => {
                answer_to(accepted(hub.unmount(alloc, self.number, domain)))
            }
            MountWish::MountAt { path, .. } => {
                answer_to(mounted(hub.mount_at(alloc, self.number, &path)))
            }
        }
    }
}
