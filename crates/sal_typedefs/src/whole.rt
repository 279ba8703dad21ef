//! Type statements that are only the name of a built-in type, with an empty block.
ghost use Rattle.std.specs.Prelude.{◌≡◌, true, IfSome};
ghost use Rattle.sal_typedefs.specs.Whole as spec;

use crate::builtin::{Builtin, builtin_of};
use sal_module::argument_of;
use sal_stmt::Stmt;

/// The built-in type that a statement with an empty block names.
pub(crate) fn lone_builtin(stmt: &Stmt) -> Option<Builtin>
    ensures { IfSome result (λ builtin. spec.Names stmt.now builtin) }
{
    if !stmt.subs.items().is_empty() {
        return None;
    }
    match builtin_of(argument_of(stmt)) {
        None => None,
        Some(builtin) => Some(builtin),
    }
}

fn is_whole(builtin: Builtin) -> bool
    ensures { result ≡ spec.is_whole builtin }
{
    match builtin {
        Builtin::Dec
        | Builtin::Enum
        | Builtin::Bits
        | Builtin::Ident
        | Builtin::Union
        | Builtin::Leafref => false,
        Builtin::Int { .. } | Builtin::Text | Builtin::Bool | Builtin::Bin | Builtin::Empty => true,
    }
}

/// The same, if the built-in type requires no substatement.
pub(crate) fn whole_builtin(stmt: &Stmt) -> Option<Builtin>
    ensures names { IfSome result (λ builtin. spec.Names stmt.now builtin) }
    ensures is { IfSome result (λ builtin. spec.is_whole builtin ≡ true) }
{
    match lone_builtin(stmt) {
        Some(builtin) if is_whole(builtin) => Some(builtin),
        _ => None,
    }
}
