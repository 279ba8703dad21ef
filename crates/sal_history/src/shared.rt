//! The operations of a submission, as the log has them.
ghost use Rattle.std.specs.Prelude.{◌≡◌};

use sal_rows::{Op, Ops};
use std::marker::Model;
use std::sync::Arc;

/// The operations of a submission, in order. Its commit shares the list, without a copy. A contract sees
/// the list.
#[derive(Drop)]
pub struct SharedOps {
    list: Arc<Ops>,
}

impl Model for SharedOps {
    ghost use Rattle.std.specs.Prelude.{List};
    ghost use Rattle.sal_rows.specs.declared.op.Op.{Op};

    ghost Value = { List Op };

    ghost view = { λ a. a.list.value };
}

impl SharedOps {
    /// The operations of the list. It takes no memory.
    pub fn of(list: Arc<Ops>) -> SharedOps
        ensures { result ≡ list.value }
    {
        SharedOps { list }
    }

    /// The operations. It takes no memory.
    pub fn items(&self) -> &[Op]
        ensures { result.now ≡ self.now }
    {
        self.list.items()
    }
}
