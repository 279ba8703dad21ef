//! A provider and a caller, each with a seat.
ghost use Rattle.std.specs.Prelude.{◌≡◌};
ghost use Rattle.sal.specs.Turns.{Keeps};

use super::service::{Service, schema};
use crate::counter::number_in;
use anyhow::bail;
use sal::{Rules, Sal, Seat, empty_device};
use std::alloc::Global;
use std::sync::{Arc, Wait};

/// Opens a broker with a provider and a caller, and asks for the number after this one.
pub(crate) fn next_number<R: Wait>(rt: &R, alloc: Global, from: u64) -> anyhow::Result<u64> {
    let schema = schema(alloc)?;
    let service = Service::of(alloc, &schema)?;
    let devices = vec![in alloc; empty_device(alloc, Arc::new(alloc, schema)?)]?;
    let (sal, mut opening) = Sal::open(alloc, devices, Rules::One)?;
    let mut provider = sal.split(&mut opening, 1);
    let mut caller = sal.split(&mut opening, 2);
    sal.provide(rt, alloc, &mut provider, service.rpc, None)?;
    let input = service.input(alloc, from)?;
    let request = sal.invoke(rt, alloc, &mut caller, service.rpc, None, input)?;
    answer_one(rt, alloc, &sal, &mut provider, &service)?;
    let Some(output) = sal.collect(rt, alloc, &mut caller, request)? else {
        bail!("the request is not answered");
    };
    Ok(number_in(&output))
}

// The provider takes the request that waits for it, and answers it.
fn answer_one<R: Wait>(
    rt: &R,
    alloc: Global,
    sal: &Sal,
    provider: &mut Seat,
    service: &Service,
) -> anyhow::Result<()>
    requires { provider.old.lock ≡ sal.now }
    ensures { Keeps sal.now provider.old provider.new }
{
    let Some(request) = sal.next_call(rt, alloc, provider)? else {
        bail!("no request waits");
    };
    let next = number_in(&request.input).saturating_add(1);
    let output = service.output(alloc, next)?;
    Ok(sal.answer(rt, alloc, provider, request.id, output)?)
}
