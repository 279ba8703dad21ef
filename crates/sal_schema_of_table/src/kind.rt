//! Properties of the kinds of nodes (RFC 7950 section 7).
ghost use Rattle.std.specs.Prelude.{◌≡◌, ◌||◌};
ghost use Rattle.sal_schema.specs.Kinds as spec;

use sal_schema::Kind;

pub(crate) fn has_type(kind: Kind) -> bool
    ensures { result ≡ spec.has_type kind }
{
    match kind {
        Kind::Leaf | Kind::LeafList => true,
        _ => false,
    }
}

pub(crate) fn is_leaf(kind: Kind) -> bool
    ensures { result ≡ spec.is_leaf kind }
{
    match kind {
        Kind::Leaf => true,
        _ => false,
    }
}

pub(crate) fn is_list(kind: Kind) -> bool
    ensures { result ≡ spec.is_list kind }
{
    match kind {
        Kind::List => true,
        _ => false,
    }
}

pub(crate) fn is_choice(kind: Kind) -> bool
    ensures { result ≡ spec.is_choice kind }
{
    match kind {
        Kind::Choice => true,
        _ => false,
    }
}

pub(crate) fn is_case(kind: Kind) -> bool
    ensures { result ≡ spec.is_case kind }
{
    match kind {
        Kind::Case => true,
        _ => false,
    }
}

pub(crate) fn is_rpc(kind: Kind) -> bool
    ensures { result ≡ spec.is_rpc kind }
{
    match kind {
        Kind::Rpc => true,
        _ => false,
    }
}

/// Whether it is the input or the output of an RPC.
pub(crate) fn is_parameters(kind: Kind) -> bool
    ensures { result ≡ spec.is_parameters kind }
{
    match kind {
        Kind::Input | Kind::Output => true,
        _ => false,
    }
}

/// Whether it is an RPC or a notification, which are at the top only.
pub(crate) fn is_of_top(kind: Kind) -> bool
    ensures { result ≡ (spec.is_rpc kind || spec.is_notification kind) }
{
    match kind {
        Kind::Rpc | Kind::Notification => true,
        _ => false,
    }
}
