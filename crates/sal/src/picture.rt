//! The picture of a hub's log.
ghost use Rattle.std.specs.Prelude.{◌≡◌, IfOk};
ghost use Rattle.sal_draw_log.specs.Drawn.{log_text};

use sal_hub::Hub;
use sal_types::{Bytes, NoMemory};
use std::alloc::Global;

/// The largest number of domains of a picture.
const MAX_DOMAINS: usize = 4294967295;

/// How the clients of a hub affect each other, as Scalable Vector Graphics: a lane for each seat, and a row for each entry of the log.
///
/// `specs/Pictures` defines the picture. It fails only if memory runs out.
pub fn draw_log(alloc: Global, hub: &Hub) -> Result<Bytes, NoMemory>
    ensures { IfOk result (λ text. text ≡ log_text hub.now.world hub.now.log) }
{
    let domains = hub.domains().len();
    if domains > MAX_DOMAINS {
        return Err(NoMemory);
    }
    sal_draw_log::draw_log(alloc, domains as u32, hub.log(), hub.outcomes())
}
