//! The calls on mounts, applied again.
ghost use Rattle.std.specs.Prelude.{◌≡◌, IfOk, Ok};
ghost use Rattle.sal_mount.specs.declared.call.MountCall.TheVariants as asked;
ghost use Rattle.sal_history.specs.declared.reply.Reply.TheVariants.{Refused};
ghost use Rattle.sal_retell.specs.Light as spec;

use sal_history::Reply;
use sal_mount::{MountFault, Mounts};
use sal_rows::CallFault;
use sal_types::{NoMemory, Path};

// A refusal, or `NoMemory`.
fn refused(fault: MountFault) -> Result<Reply, NoMemory>
    ensures { spec.Refuses fault result }
{
    match fault {
        MountFault::NoDomain { id } => refused_by(CallFault::NoDomain { id }),
        MountFault::DeviceUsed { id } => refused_by(CallFault::DeviceUsed { id }),
        MountFault::MountTaken { id } => refused_by(CallFault::MountTaken { id }),
        MountFault::NoMemory => Err(NoMemory),
    }
}

fn refused_by(fault: CallFault) -> Result<Reply, NoMemory>
    ensures { result ≡ Ok (Refused fault) }
{
    Ok(Reply::Refused { fault })
}

pub(crate) fn mount(mounts: &mut Mounts, path: &Path, device: u32) -> Result<Reply, NoMemory>
    ensures { IfOk result (spec.IsMade mounts.old mounts.new (asked.Mount path.now device)) }
{
    match mounts.mount(path, device) {
        Ok(()) => Ok(Reply::Accepted),
        Err(fault) => refused(fault),
    }
}

pub(crate) fn unmount(mounts: &mut Mounts, domain: u32) -> Result<Reply, NoMemory>
    ensures { IfOk result (spec.IsMade mounts.old mounts.new (asked.Unmount domain)) }
{
    match mounts.unmount(domain) {
        Ok(()) => Ok(Reply::Accepted),
        Err(fault) => refused(fault),
    }
}

pub(crate) fn mount_at(mounts: &Mounts, path: &Path) -> Reply
    ensures { spec.IsMade mounts.now mounts.now (asked.MountAt path.now) result }
{
    let mount = mounts.mount_at(path);
    Reply::MountAt { mount }
}
