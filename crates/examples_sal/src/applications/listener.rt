//! A listener with its mirror.
ghost use Rattle.std.specs.Prelude.{◌≡◌, IfOk};
ghost use Rattle.sal.specs.Seats.{known};
ghost use Rattle.sal.specs.Tokens.{IsListener};
ghost use Rattle.sal.specs.Turns.{Keeps};

use sal::{ListenerId, Mirror, Path, Rows, Sal, Seat, Store};
use std::alloc::Global;
use std::sync::Wait;

/// A listener to the whole configuration, and its mirror.
#[derive(Drop)]
pub(crate) struct Listener {
    pub(crate) id: ListenerId,
    pub(crate) mirror: Mirror,
}

impl Listener {
    /// Listens from now on. The mirror begins with the present rows.
    pub(crate) fn open<R: Wait>(
        rt: &R,
        alloc: Global,
        sal: &Sal,
        seat: &mut Seat,
    ) -> anyhow::Result<Listener>
        requires { seat.old.lock ≡ sal.now }
        ensures same { Keeps sal.now seat.old seat.new }
        ensures token { IfOk result (λ listener. IsListener (known seat.new.view) listener.id) }
    {
        let top = Path::root(alloc);
        let (id, opened) = sal.listen(rt, alloc, seat, 0, Store::Config, &top)?;
        let mirror = Mirror::open(alloc, &opened)?;
        Ok(Listener { id, mirror })
    }

    /// Takes the commits since the last time into the mirror, and returns how many commits changed something.
    pub(crate) fn take<R: Wait>(
        &mut self,
        rt: &R,
        alloc: Global,
        sal: &Sal,
        seat: &mut Seat,
    ) -> anyhow::Result<usize>
        requires lock { seat.old.lock ≡ sal.now }
        requires token { IsListener (known seat.old.view) self.old.id }
        ensures same { Keeps sal.now seat.old seat.new }
    {
        let batch = sal.take(rt, alloc, seat, self.id)?;
        self.mirror.take(alloc, &batch)?;
        Ok(batch.lists.items().len())
    }

    /// Whether the mirror has these rows.
    pub(crate) fn shows(&self, alloc: Global, rows: &Rows) -> anyhow::Result<bool> {
        let shown = self.mirror.rows(alloc)?;
        Ok(shown.items() == rows.items())
    }
}
