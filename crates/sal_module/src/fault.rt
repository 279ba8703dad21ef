//! The faults of modules, and which of several is returned.
ghost use Rattle.std.specs.Prelude.{◌≡◌, IfOk};
ghost use Rattle.sal_module.specs.declared.fault.BuildFault.TheVariants.{NoMemory};
ghost use Rattle.sal_module.specs.Faults as spec;

use crate::keyword::Keyword;
use sal_types::Str;
use std::alloc::{AllocError, AllocFailed, Global};
use std::fmt;
use thiserror::Error;

/// What exceeds its limit.
#[derive(Clone, Copy, Debug)]
pub enum What {
    /// Modules: more than 64.
    Modules,
    /// Nodes of the tree: more than 65,536.
    Nodes,
}

impl fmt::Display for What {
    fn fmt<W: fmt::Write>(&self, f: &mut fmt::Formatter<W>) -> fmt::Result {
        match self {
            What::Modules => f.write_str("64 modules"),
            What::Nodes => f.write_str("65,536 nodes"),
        }
    }
}

/// Why modules give no schema. `module` is the index of the module in the order given, and `at` the byte offset of the
/// statement in its text.
#[derive(Debug, Drop, Error)]
pub enum BuildFault {
    /// A statement that is not allowed in its parent.
    #[error("a statement that is not allowed there, in module {module} at byte {at}")]
    UnknownStatement { module: u32, at: u32 },
    /// A statement of YANG that the profile does not support.
    #[error("a statement that is not supported, in module {module} at byte {at}")]
    LeftOut { module: u32, at: u32 },
    /// A statement that must have a substatement of this keyword has none.
    #[error("missing statement `{}` in module {module} at byte {at}", .keyword.as_str())]
    Missing { module: u32, at: u32, keyword: Str },
    /// A second substatement of a keyword that is allowed once.
    #[error("second statement `{}` in module {module} at byte {at}", .keyword.as_str())]
    Twice { module: u32, at: u32, keyword: Str },
    /// An argument that is missing, not allowed or of the wrong form, or an import's prefix that the module already has.
    #[error("bad argument of the statement in module {module} at byte {at}")]
    BadArgument { module: u32, at: u32 },
    /// An import of a module that was not given.
    #[error("import of a module that was not given, in module {module} at byte {at}")]
    NoModule { module: u32, at: u32 },
    /// The first import of a module that imports itself, directly or through others.
    #[error("import of a module by itself, directly or through others, in module {module} at byte {at}")]
    ImportCycle { module: u32, at: u32 },
    /// A name with an unknown prefix, or a name without a definition.
    #[error("name with an unknown prefix or without a definition, in module {module} at byte {at}")]
    UnknownName { module: u32, at: u32 },
    /// A name whose definition depends on itself.
    #[error("definition that depends on itself, in module {module} at byte {at}")]
    NameCycle { module: u32, at: u32 },
    /// The later of two definitions of one name, where names must differ.
    #[error("second definition of a name in module {module} at byte {at}")]
    DoubleNode { module: u32, at: u32 },
    /// A restriction that its type does not allow, or that is wider than that of its type.
    #[error("bad restriction in module {module} at byte {at}")]
    BadRestriction { module: u32, at: u32 },
    /// A pattern that is malformed.
    #[error("malformed pattern in module {module} at byte {at}")]
    BadPattern { module: u32, at: u32 },
    /// A key, or a `unique`, that does not name leafs as required.
    #[error("bad key or unique in module {module} at byte {at}")]
    BadKey { module: u32, at: u32 },
    /// Configuration below state data.
    #[error("configuration below state data in module {module} at byte {at}")]
    ConfigUnderState { module: u32, at: u32 },
    /// An augment or a path whose target does not exist or does not fit.
    #[error("bad target of an augment or a path, in module {module} at byte {at}")]
    BadTarget { module: u32, at: u32 },
    /// The `base` of an identity of a later version's module, which names an identity of an earlier version.
    #[error("base that is an identity of an earlier version, in module {module} at byte {at}")]
    OldIdentity { module: u32, at: u32 },
    /// More modules or nodes than the limit.
    #[error("more than {what}")]
    TooMany { what: What },
    /// Memory ran out.
    #[error("out of memory")]
    NoMemory,
}

impl From<AllocError> for BuildFault {
    ghost from_gives = { λ _ e. e ≡ NoMemory };

    fn from(_refused: AllocError) -> BuildFault {
        BuildFault::NoMemory
    }
}

impl<T: Drop> From<AllocFailed<T>> for BuildFault {
    ghost from_gives = { λ _ e. e ≡ NoMemory };

    fn from(_refused: AllocFailed<T>) -> BuildFault {
        BuildFault::NoMemory
    }
}

impl From<sal_types::NoMemory> for BuildFault {
    ghost from_gives = { λ _ e. e ≡ NoMemory };

    fn from(_refused: sal_types::NoMemory) -> BuildFault {
        BuildFault::NoMemory
    }
}

/// The kind of a fault.
#[derive(Clone, Copy)]
pub enum Cause {
    UnknownStatement,
    LeftOut,
    Missing(Keyword),
    Twice(Keyword),
    BadArgument,
    NoModule,
    ImportCycle,
    UnknownName,
    NameCycle,
    DoubleNode,
    BadRestriction,
    BadPattern,
    BadKey,
    ConfigUnderState,
    BadTarget,
    OldIdentity,
}

/// A fault with its place.
#[derive(Clone, Copy)]
pub struct Found {
    /// Its kind.
    pub cause: Cause,
    /// The number of the module.
    pub module: u32,
    /// The byte offset of the statement.
    pub at: u32,
}

impl Cause {
    /// The number that orders faults of one statement.
    pub fn number(self) -> u8
        ensures { result ≡ spec.number_of self }
    {
        match self {
            Cause::UnknownStatement => 1,
            Cause::LeftOut => 2,
            Cause::Missing(_) => 3,
            Cause::Twice(_) => 4,
            Cause::BadArgument => 5,
            Cause::NoModule => 6,
            Cause::ImportCycle => 7,
            Cause::UnknownName => 8,
            Cause::NameCycle => 9,
            Cause::DoubleNode => 10,
            Cause::BadRestriction => 11,
            Cause::BadPattern => 12,
            Cause::BadKey => 13,
            Cause::ConfigUnderState => 14,
            Cause::BadTarget => 15,
            Cause::OldIdentity => 16,
        }
    }
}

fn is_before(a: Found, b: Found) -> bool
    ensures { result ≡ spec.is_before a b }
{
    a.module < b.module
        || (a.module == b.module
            && (a.at < b.at || (a.at == b.at && a.cause.number() < b.cause.number())))
}

/// The first of the two: the one with the smaller module, then the smaller offset, then the smaller number; of equals the
/// one found earlier.
pub fn better(best: Option<Found>, found: Found) -> Option<Found>
    ensures { result ≡ spec.better best found }
{
    match best {
        None => Some(found),
        Some(best) => {
            if is_before(found, best) {
                Some(found)
            } else {
                Some(best)
            }
        }
    }
}

impl Found {
    /// The fault as `BuildFault`.
    pub fn fault(self, alloc: Global) -> Result<BuildFault, sal_types::NoMemory>
        ensures { IfOk result (λ fault. fault ≡ spec.fault_of self) }
    {
        let module = self.module;
        let at = self.at;
        Ok(match self.cause {
            Cause::UnknownStatement => BuildFault::UnknownStatement { module, at },
            Cause::LeftOut => BuildFault::LeftOut { module, at },
            Cause::Missing(keyword) => BuildFault::Missing {
                module,
                at,
                keyword: Str::new(alloc, keyword.word())?,
            },
            Cause::Twice(keyword) => BuildFault::Twice {
                module,
                at,
                keyword: Str::new(alloc, keyword.word())?,
            },
            Cause::BadArgument => BuildFault::BadArgument { module, at },
            Cause::NoModule => BuildFault::NoModule { module, at },
            Cause::ImportCycle => BuildFault::ImportCycle { module, at },
            Cause::UnknownName => BuildFault::UnknownName { module, at },
            Cause::NameCycle => BuildFault::NameCycle { module, at },
            Cause::DoubleNode => BuildFault::DoubleNode { module, at },
            Cause::BadRestriction => BuildFault::BadRestriction { module, at },
            Cause::BadPattern => BuildFault::BadPattern { module, at },
            Cause::BadKey => BuildFault::BadKey { module, at },
            Cause::ConfigUnderState => BuildFault::ConfigUnderState { module, at },
            Cause::BadTarget => BuildFault::BadTarget { module, at },
            Cause::OldIdentity => BuildFault::OldIdentity { module, at },
        })
    }
}
