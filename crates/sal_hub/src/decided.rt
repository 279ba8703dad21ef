//! The outcomes of the submissions.
ghost use Rattle.std.specs.Prelude.{◌≡◌};
ghost use Rattle.sal_history.specs.History.{history, outcomes, pending};

use crate::hub::Hub;
use sal_rows::Outcome;

impl Hub {
    /// The outcomes of the receipts that are decided, from receipt 1 on. It takes no memory.
    pub fn outcomes(&self) -> &[Outcome]
        ensures { result.now ≡ outcomes (history self.now.world self.now.log) }
    {
        &self.pipeline.outcomes
    }

    /// The number of submissions that are not decided. It takes no memory.
    pub fn pending(&self) -> usize
        ensures { result ≡ pending (history self.now.world self.now.log) }
    {
        self.pipeline.waiting.len()
    }
}
