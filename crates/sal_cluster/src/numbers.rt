//! The numbers of a hub's commits in the streams of its domains.
ghost use Rattle.std.specs.Prelude.{◌≡◌, ◌≤◌, ◌<◌, ◌+◌, ◌-◌, ◌^◌, ◌&&◌, ℕ, true, SomeIff, length, min, nat_eq};
ghost use Rattle.sal_cluster.specs.Numbers.{are_newest, base_of, is_domain, number_of};

use crate::bases::Bases;
use sal_hub::Hub;

/// Whether there is a domain of this number: 0 is the controller's own.
pub(crate) fn has_domain(hub: &Hub, domain: u32) -> bool
    ensures is { result ≡ is_domain domain (length hub.now.world) }
    ensures inside { result ≡ true → domain < length hub.now.world }
{
    hub.stays_lawful();
    if domain == 0 {
        return true;
    }
    (domain as usize) < hub.domains().len()
}

/// The number of the newest commit of the domain in its stream; none if it has more than 64 bits.
pub(crate) fn number(hub: &Hub, bases: &Bases, domain: u32) -> Option<u64>
    requires { domain < length hub.now.world }
    ensures { SomeIff result (number_of hub.now bases.now domain < 2 ^ 64) (number_of hub.now bases.now domain) }
{
    let newest = hub.newest_of(domain);
    bases.of(domain).checked_add(newest)
}

/// Whether these are the numbers of the newest commits of the first domains.
pub(crate) fn are_newest(hub: &Hub, bases: &Bases, newest: &[u64]) -> bool
    requires { length hub.now.world ≤ 64 }
    ensures { result ≡ are_newest hub.now bases.now 0 newest.now }
{
    for (index, number) in newest.iter().enumerate() {
        if !is_newest(hub, bases, index, *number) {
            return false;
        }
    }
    true
}

// Whether there is a domain of this number, and its newest commit has that one.
fn is_newest(hub: &Hub, bases: &Bases, index: usize, number: u64) -> bool
    requires { length hub.now.world ≤ 64 }
    ensures { result ≡ (is_domain index (length hub.now.world) && nat_eq number (number_of hub.now bases.now index)) }
{
    if index >= 64 {
        return false;
    }
    has_newest(hub, bases, index as u32, number)
}

// The same for the number of a domain.
fn has_newest(hub: &Hub, bases: &Bases, domain: u32, number: u64) -> bool
    ensures { result ≡ (is_domain domain (length hub.now.world) && nat_eq number (number_of hub.now bases.now domain)) }
{
    if has_domain(hub, domain) {
        return is_number(hub, bases, domain, number);
    }
    false
}

// Whether the domain's newest commit has this number.
fn is_number(hub: &Hub, bases: &Bases, domain: u32, number: u64) -> bool
    requires { domain < length hub.now.world }
    ensures { result ≡ nat_eq number (number_of hub.now bases.now domain) }
{
    match number.checked_sub(bases.of(domain)) {
        Some(commits) => commits == hub.newest_of(domain),
        None => false,
    }
}

/// The numbers of the newest commits, with which the streams go on.
pub(crate) fn moved_on(hub: &Hub, bases: &Bases) -> Bases
    requires { length hub.now.world ≤ 64 }
    ensures { (n : ℕ) → n < length hub.now.world → base_of result n ≡ min (number_of hub.now bases.now n) (2 ^ 64 - 1) }
{
    let mut next = Bases::zeros();
    for domain in 0..hub.domains().len() as u32 {
        next.set(domain, counted(bases.of(domain), hub.newest_of(domain)));
    }
    next
}

// A number after a base; the largest one if it has more than 64 bits.
fn counted(base: u64, commits: u64) -> u64
    ensures { result ≡ min (base + commits) (2 ^ 64 - 1) }
{
    base.saturating_add(commits)
}
