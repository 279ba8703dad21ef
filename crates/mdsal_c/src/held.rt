//! A session on the heap, by a pointer that C keeps, or none.
ghost use Rattle.std.specs.Prelude.{◌≡◌, true};
ghost use Rattle.std.specs.Coded.{coded_option};
ghost use Rattle.std.specs.Option.{is_some};
ghost use Rattle.std.specs.declared.option.Option.{Option};
ghost use Rattle.std.specs.declared.option.Option.TheVariants.{None, Some};
ghost use Rattle.std.specs.contracts.impls.GlobalAllocator.TheImpl.{ghosts};
ghost use Rattle.sal_session.specs.declared.session.Session.{Session as SessionValue};
ghost use Rattle.sal_session.specs.contracts.session.Session.{the_row as session_row};
ghost use Rattle.mdsal_c.specs.Owned.{held_owns};

use sal_handle::loose::Loose;
use sal_session::Session;
use std::alloc::Global;
use std::marker::Model;
use std::ptr::null_mut;

// Dropping it frees nothing: only one without a session is dropped.
#[repr(C)]
#[derive(Drop)]
pub struct Held {
    at: *mut u8,
    alloc: Global,
    pub ghost value: { Option SessionValue } by { coded_option session_row.coded },
}

impl Model for Held {
    ghost also_owns = { λ h. held_owns (ghosts.dealloc_token h.alloc) session_row h.at h.value };
}

// It goes where its session may go.
unsafe impl Send for Held {}

impl Held {
    pub(crate) fn of(session: Loose<Session, Global>) -> Held
        ensures { result.value ≡ Some session.value }
    {
        let Loose { at, alloc } = session;
        Held {
            at: at as *mut u8,
            alloc,
        }
    }

    pub(crate) fn into_loose(self) -> Loose<Session, Global>
        requires { is_some self.value ≡ true }
        ensures { Some result.value ≡ self.value }
    {
        let Held { at, alloc } = self;
        Loose {
            at: at as *mut Session,
            alloc,
        }
    }

    pub(crate) fn nothing(alloc: Global) -> Held
        ensures { result.value ≡ None }
    {
        Held {
            at: null_mut(),
            alloc,
        }
    }
}
