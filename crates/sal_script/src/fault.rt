//! Why bytes are no script.
ghost use Rattle.std.specs.Prelude.{◌≡◌, MatchResult, string_bytes};
ghost use Rattle.sal_script.specs.Reading.{IsBadAt};
ghost use Rattle.sal_script.specs.Script.{client_place, device_place, step_place};

use sal_types::{NoMemory, Str};
use std::alloc::{AllocError, AllocFailed, Global};
use thiserror::Error;

/// Why bytes are no script.
#[derive(Debug, Drop, PartialEq, Eq, Error)]
pub enum ScriptFault {
    /// The first fault: `json`, `script`, `devices/1`, `clients`, `clients/1`, `clients/1/7` or `order`.
    #[error("bad script at {}", .place.as_str())]
    BadScript { place: Str },
    #[error("out of memory")]
    NoMemory,
}

impl From<NoMemory> for ScriptFault {
    ghost use Rattle.sal_script.specs.declared.fault.ScriptFault.TheVariants.{NoMemory};

    ghost from_gives = { λ _ e. e ≡ NoMemory };

    fn from(_refused: NoMemory) -> ScriptFault {
        ScriptFault::NoMemory
    }
}

impl From<AllocError> for ScriptFault {
    ghost use Rattle.sal_script.specs.declared.fault.ScriptFault.TheVariants.{NoMemory};

    ghost from_gives = { λ _ e. e ≡ NoMemory };

    fn from(_refused: AllocError) -> ScriptFault {
        ScriptFault::NoMemory
    }
}

impl<T: Drop> From<AllocFailed<T>> for ScriptFault {
    ghost use Rattle.sal_script.specs.declared.fault.ScriptFault.TheVariants.{NoMemory};

    ghost from_gives = { λ _ e. e ≡ NoMemory };

    fn from(_refused: AllocFailed<T>) -> ScriptFault {
        ScriptFault::NoMemory
    }
}

// The fault at a place.
fn bad_at(place: Result<String, AllocError>) -> ScriptFault
    ensures { MatchResult place (λ text. IsBadAt (string_bytes text) result) (λ _. result ≡ ScriptFault.NoMemory) }
{
    match place {
        Ok(place) => ScriptFault::BadScript {
            place: Str::from_string(place),
        },
        Err(_) => ScriptFault::NoMemory,
    }
}

/// The fault with this place.
pub fn bad(alloc: Global, place: &str) -> ScriptFault
    ensures { IsBadAt place.now result }
{
    bad_at(String::from_str(alloc, place))
}

// The fault with the number of this device.
pub(crate) fn bad_device(alloc: Global, device: usize) -> ScriptFault
    ensures { IsBadAt (device_place device) result }
{
    bad_at(format!(in alloc; "devices/{device}"))
}

// The fault with the number of this client.
pub(crate) fn bad_client(alloc: Global, client: usize) -> ScriptFault
    ensures { IsBadAt (client_place client) result }
{
    bad_at(format!(in alloc; "clients/{client}"))
}

// The fault with the number of this step of the client.
pub(crate) fn bad_step(alloc: Global, client: usize, step: usize) -> ScriptFault
    ensures { IsBadAt (step_place client step) result }
{
    bad_at(format!(in alloc; "clients/{client}/{step}"))
}
