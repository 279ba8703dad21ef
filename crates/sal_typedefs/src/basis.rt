//! The type that a type statement restricts: a built-in type, or that of the typedef that it names.
ghost use Rattle.std.specs.Prelude.{◌≡◌, [], map, IfOk, Some, None, true};
ghost use Rattle.sal_restrict.specs.declared.yang_type.YangType.TheViews.{out-YangType};
ghost use Rattle.sal_typedefs.specs.declared.judgement.Judgement.{Judgement as Kept};
ghost use Rattle.sal_typedefs.specs.Restrictions.{HasNumbers, HasPositions};
ghost use Rattle.sal_typedefs.specs.Builtins.{type_of};
ghost use Rattle.sal_typedefs.specs.Judgements as spec;

use crate::builtin::Builtin;
use crate::entry::Entry;
use crate::judgement::{Basis, Judgement};
use crate::layer::copies;
use sal_restrict::YangType;
use sal_types::{NoMemory, Shared, append};
use std::alloc::Global;

/// The types of statements.
pub(crate) fn types_of(
    alloc: Global,
    below: &[Shared<Judgement>],
) -> Result<Vec<YangType>, NoMemory>
    ensures { IfOk result (λ types. types.items ≡ map (λ (d : Kept). d.ty) below.now) }
{
    let mut types = Vec::with_capacity(alloc, below.len())?;
    for judgement in below {
        append(&mut types, judgement.value().ty.copy(alloc)?)?;
    }
    Ok(types)
}

/// A built-in type itself.
fn own_basis(alloc: Global, builtin: Builtin) -> Result<Basis, NoMemory>
    ensures value { IfOk result (λ b. spec.base_seen b ≡ record { type = type_of builtin; entries = []; itself = true }) }
    ensures numbers { IfOk result (λ b. HasNumbers (out-YangType b.ty)) }
    ensures positions { IfOk result (λ b. HasPositions (out-YangType b.ty) b.entries.items) }
{
    Ok(Basis {
        ty: builtin.bare(alloc)?,
        entries: Vec::new(alloc),
        itself: true,
    })
}

/// This type, with copies of these names.
pub(crate) fn with_entries(
    alloc: Global,
    ty: YangType,
    entries: &[Entry],
    itself: bool,
) -> Result<Basis, NoMemory>
    ensures value { IfOk result (λ b. spec.base_seen b ≡ record { type = ty; entries = entries.now; itself = itself }) }
    ensures ty { IfOk result (λ b. b.ty ≡ ty) }
{
    let entries = copies(alloc, entries)?;
    Ok(Basis {
        ty,
        entries,
        itself,
    })
}

/// The first of these types, or one without values.
fn derived_basis(alloc: Global, below: &[Shared<Judgement>]) -> Result<Basis, NoMemory>
    ensures value { IfOk result (λ b. spec.base_seen b ≡ spec.first_base below.now) }
    ensures numbers { spec.AllNumbers below.now → IfOk result (λ b. HasNumbers (out-YangType b.ty)) }
    ensures positions { spec.AllPositions below.now → IfOk result (λ b. HasPositions (out-YangType b.ty) b.entries.items) }
{
    match below.first() {
        None => Ok(Basis {
            ty: YangType::Empty,
            entries: Vec::new(alloc),
            itself: false,
        }),
        Some(judgement) => {
            let below = judgement.value();
            let ty = below.ty.copy(alloc)?;
            let basis = with_entries(alloc, ty, below.entries.as_slice(), false)?;
            Ok(basis)
        }
    }
}

/// The type that a statement restricts: this built-in type, or else that of a typedef.
pub(crate) fn basis_of(
    alloc: Global,
    builtin: Option<Builtin>,
    below: &[Shared<Judgement>],
) -> Result<Basis, NoMemory>
    ensures value { IfOk result (λ b. spec.base_seen b ≡ spec.base_by builtin below.now) }
    ensures numbers { spec.AllNumbers below.now → IfOk result (λ b. HasNumbers (out-YangType b.ty)) }
    ensures positions { spec.AllPositions below.now → IfOk result (λ b. HasPositions (out-YangType b.ty) b.entries.items) }
{
    match builtin {
        Some(builtin) => own_basis(alloc, builtin),
        None => derived_basis(alloc, below),
    }
}
