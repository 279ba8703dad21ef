//! A handle of C: whether there is a session, and where. Zeros mean none.
ghost use Rattle.std.specs.Prelude.{◌≡◌, false, option_map};
ghost use Rattle.std.specs.Option.{is_some};
ghost use Rattle.std.specs.declared.option.Option.TheVariants.{None, Some};
ghost use Rattle.mdsal_c.specs.Handles.{EpochIf, Follows, FollowsIf, Opens, is_open};

use crate::held::Held;
use sal_handle::loose::Loose;
use sal_session::{IS_OPEN, NO_MEMORY, NOT_OPEN, Session, loose};
use std::alloc::Global;
use std::mem;

#[repr(C)]
#[derive(Drop)]
pub struct Mdsal {
    pub(crate) full: bool,
    pub(crate) held: Held,
    ghost agrees: { full ≡ is_some held.value },
}

impl Mdsal {
    // Takes the session out.
    pub(crate) fn take(&mut self, alloc: Global) -> Option<Loose<Session, Global>>
        ensures taken { option_map (λ it. it.value) result ≡ self.old.held.value }
        ensures left { self.new.held.value ≡ None }
    {
        let held = Held::nothing(alloc);
        let Mdsal { full, held } = mem::replace(self, Mdsal { full: false, held });
        if full {
            return Some(held.into_loose());
        }
        None
    }

    // Sets a session if there is none.
    pub(crate) fn put(&mut self, session: Loose<Session, Global>)
        requires { self.old.held.value ≡ None }
        ensures { self.new.held.value ≡ Some session.value }
    {
        let held = Held::of(session);
        *self = Mdsal { full: true, held };
    }

    // Whether there is a broker or a stand-by.
    pub(crate) fn is_open(&mut self, alloc: Global) -> bool
        ensures open { result ≡ is_open self.old.held.value }
        ensures same { self.new.held.value ≡ self.old.held.value }
    {
        let taken = self.take(alloc);
        match taken {
            Some(session) => {
                let (session, is_open) = loose::is_open(session);
                self.put(session);
                is_open
            }
            None => false,
        }
    }

    // Drops the session.
    pub(crate) fn close(&mut self, alloc: Global)
        ensures { self.new.held.value ≡ None }
    {
        let taken = self.take(alloc);
        match taken {
            Some(session) => loose::close(session),
            None => {}
        }
    }

    // Opens a stand-by, if none and no broker is open.
    pub(crate) fn follow(&mut self, alloc: Global, script: &[u8], firsts: &[u64]) -> u32
        ensures { FollowsIf script.now firsts.now self.old.held.value self.new.held.value result }
    {
        if self.is_open(alloc) {
            return IS_OPEN;
        }
        self.close(alloc);
        self.stand(alloc, script, firsts)
    }

    // Begins the next epoch of a broker.
    pub(crate) fn epoch(&mut self, alloc: Global, newest: &[u64]) -> u32
        ensures { EpochIf self.old.held.value newest.now self.new.held.value result }
    {
        let taken = self.take(alloc);
        match taken {
            Some(session) => {
                let (session, status) = loose::epoch(session, alloc, newest);
                self.put(session);
                status
            }
            None => NOT_OPEN,
        }
    }

    // Sets a stand-by if there is no session.
    pub(crate) fn stand(&mut self, alloc: Global, script: &[u8], firsts: &[u64]) -> u32
        requires { self.old.held.value ≡ None }
        ensures { Follows script.now firsts.now self.new.held.value result }
    {
        match loose::follow(alloc, script, firsts) {
            Ok((session, status)) => {
                self.put(session);
                status
            }
            Err(_) => NO_MEMORY,
        }
    }

    // Sets a new session if there is none.
    pub(crate) fn fill(&mut self, alloc: Global, script: &[u8]) -> u32
        requires { self.old.held.value ≡ None }
        ensures { Opens script.now self.new.held.value result }
    {
        match loose::open(alloc, script) {
            Ok((session, status)) => {
                self.put(session);
                status
            }
            Err(_) => NO_MEMORY,
        }
    }
}

// A handle of C may go to another thread.
pub(crate) fn handles_may_move() {
    may_move::<Mdsal>();
}

fn may_move<T: Send>() {}
