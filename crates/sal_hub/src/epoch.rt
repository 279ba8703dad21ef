//! The next epoch of a hub.
ghost use Rattle.std.specs.Prelude.{◌≡◌, ◌≤◌, length, map};
ghost use Rattle.sal_hub.specs.Epochs.{OpensAtTheNewest, begun_views, next_hub};
ghost use Rattle.sal_hub.specs.PipelineView.{AllKept, shown};

use crate::first::hub_of;
use crate::hub::Hub;
use sal_commit::Domain;
use sal_rows::Rules;
use std::alloc::Global;

impl Hub {
    /// The hub of the next epoch, without calls: each domain begins with its newest trees, by the present version of its schema, under the version
    /// rules. The nodes of these trees are kept. Everything else of the hub is dropped: its log, its commits, and pending submissions. It copies no
    /// node, makes no check and takes no memory, so it cannot fail.
    pub fn next_epoch(self, alloc: Global, rules: Rules) -> Hub
        requires { length self.world ≤ 64 }
        ensures next { result ≡ next_hub rules self }
        ensures leader { OpensAtTheNewest self result.world }
    {
        let (_, pipeline) = self.into_parts();
        let domains = begun(pipeline.domains, rules);
        hub_of(alloc, domains)
    }
}

// Each domain begins its next epoch.
fn begun(mut domains: Vec<Domain>, rules: Rules) -> Vec<Domain>
    requires { AllKept domains.items }
    ensures kept { AllKept result.items }
    ensures begun { map shown result.items ≡ begun_views rules (map shown domains.items) }
{
    for i in 0..domains.len() {
        domains[i].begin_anew(rules);
    }
    domains
}
