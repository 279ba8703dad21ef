//! A broker whose commits have numbers in streams, one for each domain.
ghost use Rattle.std.specs.Prelude.{◌≡◌, ◌≤◌, ◌<◌, ◌+◌, ◌-◌, ◌^◌, true, IfSome, SomeIff, length};
ghost use Rattle.sal_follow.specs.Framed.{ExportsOn, IsSnapshot};
ghost use Rattle.sal_resume.specs.Committed.{committed};
ghost use Rattle.sal_resume.specs.Newest.{newest};
ghost use Rattle.sal_history.specs.History.{newest_tree};
ghost use Rattle.sal_script.specs.Tables.{last_in, tables_of, versions_of};
ghost use Rattle.sal_cluster.specs.Looks.{Looks};
ghost use Rattle.sal_hub.specs.Answers.{limit};
ghost use Rattle.sal_cluster.specs.Leaders.{IsFirst, Sends, base_of, is_domain, number_of, present, table_sent};

use crate::bases::Bases;
use crate::epoch::later;
use crate::fault::{FramesFault, as_frames};
use crate::look::{LookFault, Place, look_in_tree, reader_of};
use crate::numbers::{has_domain, number};
use sal_embed::Embedded;
use sal_follow::{ExportFault, NextFrame};
use sal_hub::{Hub, MAX_ENTRIES};
use sal_resume::{frames_by, snapshot_by};
use sal_schema::Schema;
use sal_tree::tree_of;
use sal_types::{Bytes, Str};
use std::alloc::Global;

/// A broker whose commits have numbers in streams that go on over epochs and brokers: one stream for each domain.
#[derive(Drop)]
pub struct Leader {
    pub broker: Embedded,
    /// The number of commit 0 of each domain.
    pub bases: Bases,
    /// The version of the script that is version 0 of domain 0.
    pub version: u32,
}

impl Leader {
    /// A broker that begins its streams.
    pub fn first(broker: Embedded) -> Leader
        ensures broker { result.broker ≡ broker }
        ensures first { IsFirst result }
    {
        Leader {
            broker,
            bases: Bases::zeros(),
            version: 0,
        }
    }

    /// Whether there is a domain of this number: 0 is the controller's own.
    pub fn has_domain(&self, domain: u32) -> bool
        ensures is { result ≡ is_domain domain (length self.now.broker.hub.world) }
        ensures inside { result ≡ true → domain < length self.now.broker.hub.world }
    {
        has_domain(self.broker.hub(), domain)
    }

    /// How many domains there are.
    pub fn domains(&self) -> usize
        ensures { result ≡ length self.now.broker.hub.world }
    {
        self.broker.hub().domains().len()
    }

    /// The number of the newest commit of the domain in its stream; none if it has more than 64 bits.
    pub fn number(&self, domain: u32) -> Option<u64>
        requires { domain < length self.now.broker.hub.world }
        ensures { SomeIff result (number_of self.now.broker.hub self.now.bases domain < 2 ^ 64) (number_of self.now.broker.hub self.now.bases domain) }
    {
        number(self.broker.hub(), &self.bases, domain)
    }

    /// The present version of the schema of domain 0, as the script counts: a stand-by leads by it. The largest number if it has more than 32 bits.
    pub fn present(&self) -> u32
        ensures { result ≡ present self.now }
    {
        later(self.version, self.past().version)
    }

    /// How many more calls the log has room for: a host begins the next epoch before there is none.
    pub fn entries_left(&self) -> usize
        ensures { result ≡ limit - length self.now.broker.hub.log }
    {
        MAX_ENTRIES.saturating_sub(self.broker.hub().log().len())
    }

    /// The frames of the domain's commits with numbers above this one, by the last version of its schema: none if that of the newest is not greater.
    pub fn frames(&self, alloc: Global, domain: u32, above: u64) -> Result<Bytes, FramesFault>
        requires { domain < length self.now.broker.hub.world }
        ensures { Sends self.now.broker.hub domain (base_of self.now.bases domain) above result }
    {
        let base = self.bases.of(domain);
        if above < base {
            return Err(FramesFault::Gone);
        }
        self.frames_above(alloc, domain, base, above)
    }

    // The same above a number that is not below that of commit 0.
    fn frames_above(
        &self,
        alloc: Global,
        domain: u32,
        base: u64,
        above: u64,
    ) -> Result<Bytes, FramesFault>
        requires inside { domain < length self.now.broker.hub.world }
        requires low { base ≤ above }
        ensures { Sends self.now.broker.hub domain base above result }
    {
        match after(above) {
            Some(number) => as_frames(self.frames_from(
                alloc,
                domain,
                NextFrame {
                    commit: number - base,
                    number,
                },
            )),
            None => past_all(alloc, self.broker.hub(), domain, base, above),
        }
    }

    // The frames from the next one on.
    fn frames_from(&self, alloc: Global, domain: u32, next: NextFrame) -> Result<Bytes, ExportFault>
        requires { domain < length self.now.broker.hub.world }
        ensures { ExportsOn (table_sent self.now.broker.hub domain) (committed self.now.broker.hub domain) next.commit next.number result }
    {
        let schema = self.schema_of(domain);
        frames_by(alloc, schema, self.broker.hub(), domain, next)
    }

    // The last version of the domain's schema.
    fn schema_of(&self, domain: u32) -> &Schema
        requires { domain < length self.now.broker.hub.world }
        ensures { result.now ≡ table_sent self.now.broker.hub domain }
    {
        let reader = reader_of(self.broker.readers(), domain);
        reader.schema()
    }

    /// The frame with all rows of the domain's newest commit, by the last version of its schema: a stream may begin with it.
    pub fn snapshot(&self, alloc: Global, domain: u32) -> Result<Bytes, ExportFault>
        requires { domain < length self.now.broker.hub.world }
        ensures { IsSnapshot (table_sent self.now.broker.hub domain) (number_of self.now.broker.hub self.now.bases domain) (newest self.now.broker.hub domain) result }
    {
        match self.number(domain) {
            Some(number) => self.newest_frame(alloc, domain, number),
            None => Err(ExportFault::NoMemory),
        }
    }

    // The same with this number.
    fn newest_frame(&self, alloc: Global, domain: u32, number: u64) -> Result<Bytes, ExportFault>
        requires { domain < length self.now.broker.hub.world }
        ensures { IsSnapshot (table_sent self.now.broker.hub domain) number (newest self.now.broker.hub domain) result }
    {
        let schema = self.schema_of(domain);
        snapshot_by(alloc, schema, self.broker.hub(), domain, number)
    }

    /// The text of a read of the path in a newest tree. It is no step: it adds nothing to the log or the report.
    pub fn look(&self, alloc: Global, place: Place, path: &[u8]) -> Result<Str, LookFault>
        requires { place.domain < length self.now.broker.hub.world }
        ensures { Looks (tables_of self.now.broker.hub.world) (table_sent self.now.broker.hub place.domain) place.domain (newest_tree self.now.broker.hub.world self.now.broker.hub.log place.domain place.store) path.now result }
    {
        let broker = &self.broker;
        let Place { domain, store } = place;
        let reader = reader_of(broker.readers(), domain);
        let tree = tree_of(broker.hub().trees_of(domain), store);
        look_in_tree(alloc, domain, reader, broker.schemas(), tree, path)
    }
}

// The frames above the largest number: none, unless that of the newest commit has more than 64 bits.
fn past_all(
    alloc: Global,
    hub: &Hub,
    domain: u32,
    base: u64,
    above: u64,
) -> Result<Bytes, FramesFault>
    requires inside { domain < length hub.now.world }
    requires low { base ≤ above }
    ensures { Sends hub.now domain base above result }
{
    if hub.newest_of(domain) > above - base {
        return Err(FramesFault::NoMemory);
    }
    Ok(Bytes::from_items(Vec::new(alloc)))
}

// The number after this one.
fn after(number: u64) -> Option<u64>
    ensures { IfSome result (λ next. next ≡ number + 1) }
{
    number.checked_add(1)
}
