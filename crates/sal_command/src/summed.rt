//! The summary of a load, as text.
ghost use Rattle.std.specs.Prelude.{◌≡◌, IfOk};
ghost use Rattle.sal_script.specs.LoadOrder as load;
ghost use Rattle.sal_script.specs.Report as spec;

use sal_client::Played;
use sal_hub::Hub;
use sal_report::{DomainEnd, summary};
use sal_types::{NoMemory, Str};
use std::alloc::Global;

/// The summary of a load of this many rounds, whose values begin after this number.
pub(crate) fn summary_of(
    alloc: Global,
    rounds: u32,
    start: u32,
    played: &Played,
) -> Result<Str, NoMemory>
    ensures { IfOk result (λ text. text ≡ load.summary rounds start played.now.hub.world (record { log = played.now.hub.log; replies = played.now.replies })) }
{
    summary(
        alloc,
        rounds,
        start,
        played.hub.log(),
        &own_trees(&played.hub),
    )
}

// The trees at the end of the controller's own domain.
fn own_trees(hub: &Hub) -> DomainEnd
    ensures { result ≡ spec.trees_in hub.now.world hub.now.log 0 }
{
    DomainEnd {
        domain: 0,
        commits: hub.newest(),
        trees: hub.trees(),
    }
}
