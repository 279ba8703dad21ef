//! The hub, as the lock keeps it: a value with entries and a world that no turn changes.
use sal_history::{Device, Entry};
use sal_hub::Hub;
use sal_rows::Rules;
use sal_turn::Chronicle;
use std::marker::Model;

/// The hub under the lock, in a box, so that a turn moves a pointer. A contract sees it as the hub.
#[derive(Drop)]
pub(crate) struct Shared {
    pub(crate) hub: Box<Hub>,
}

/// The domains of a hub with their opening trees and their version rules. No value of it exists at run time.
pub(crate) struct World {
    devices: Vec<Device>,
    rules: Rules,
}

impl Model for World {
    ghost use Rattle.std.specs.Prelude.{List};
    ghost use Rattle.std.specs.Coded.{codes};
    ghost use Rattle.sal_restrict.specs.contracts.yang_type.YangType as e;
    ghost use Rattle.sal_history.specs.World.{Domain};
    ghost use Rattle.sal_hub.specs.Openings.{world_of};

    ghost Value = { List Domain };

    ghost coded = { Prim.hlevel (codes, e.the_row.coded) };

    ghost view = { λ w. world_of w.rules w.devices.items };
}

impl Chronicle for Shared {
    ghost use Rattle.sal_broker.specs.Seats.{client_of};

    type Entry = Entry;

    type Ground = World;

    ghost entries = { λ s. s.hub.value.log };

    ghost client = { client_of };

    ghost ground = { λ s. s.hub.value.world };
}
