//! Worked examples of mounts. Each function does nothing; its contract states what the definitions give for some calls, and the
//! proof computes it. There are two devices, 1 and 2.
#![tactic(auto)]

ghost use Rattle.std.specs.Prelude.{◌≡◌, true, false, [], ◌∷◌, None, Some};
ghost use Rattle.sal_mount.specs.declared.call.MountCall.TheVariants.{Mount, Unmount, MountAt as Asks};
ghost use Rattle.sal_mount.specs.declared.call.MountFault.TheVariants.{NoDomain, DeviceUsed, MountTaken};
ghost use Rattle.sal_mount.specs.declared.call.MountReply.TheVariants.{Accepted, MountAt, Refused};
ghost use Rattle.sal_mount.specs.Examples.{replies, there};
ghost use Rattle.sal_mount.specs.Mounts.{is_live, made_of};

/// A device is mounted, unmounted, and not mounted again.
pub fn mounted_once()
    ensures replies { replies (Mount (there 7) 1 ∷ Asks (there 7) ∷ Unmount 1 ∷ Asks (there 7) ∷ Mount (there 8) 1 ∷ Unmount 1 ∷ [])
        ≡ Accepted ∷ MountAt (Some 1) ∷ Accepted ∷ MountAt None ∷ Refused (DeviceUsed 1) ∷ Refused (NoDomain 1) ∷ [] }
    ensures live { is_live (made_of 3 (Mount (there 7) 1 ∷ [])) 1 ≡ true }
    ensures gone { is_live (made_of 3 (Mount (there 7) 1 ∷ Unmount 1 ∷ [])) 1 ≡ false }
    ensures own { is_live [] 0 ≡ true }
{}

/// A path has at most one live mount; after its unmount another device may be mounted there.
pub fn one_mount_at_a_path()
    ensures { replies (Mount (there 7) 1 ∷ Mount (there 7) 2 ∷ Unmount 1 ∷ Mount (there 7) 2 ∷ Asks (there 7) ∷ [])
        ≡ Accepted ∷ Refused (MountTaken 1) ∷ Accepted ∷ Accepted ∷ MountAt (Some 2) ∷ [] }
{}

/// The controller's own domain is no device, and neither is a number that the list of devices lacks.
pub fn no_device()
    ensures { replies (Mount (there 7) 0 ∷ Mount (there 7) 3 ∷ Unmount 0 ∷ Unmount 2 ∷ [])
        ≡ Refused (NoDomain 0) ∷ Refused (NoDomain 3) ∷ Refused (NoDomain 0) ∷ Refused (NoDomain 2) ∷ [] }
{}
