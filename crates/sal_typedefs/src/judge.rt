//! The type of one type statement, after those that it depends on (RFC 7950 sections 7.4 and 9).
ghost use Rattle.std.specs.Prelude.{◌≡◌, ◌≤◌, None, IfOk};
ghost use Rattle.sal_restrict.specs.declared.yang_type.YangType.TheViews.{out-YangType, roll-YangType};
ghost use Rattle.sal_module.specs.Faults.{least};
ghost use Rattle.sal_typedefs.specs.Restrictions as restrictions;
ghost use Rattle.sal_typedefs.specs.Restrictions.{HasNumbers, HasPositions, HasPlaces};
ghost use Rattle.sal_typedefs.specs.Types as types_spec;
ghost use Rattle.sal_typedefs.specs.Judgements as spec;

use crate::basis::with_entries;
use crate::entry::Entry;
use crate::judgement::{Basis, Judgement};
use crate::judging::{small_number, with_absent, with_all_digits, with_subs};
use crate::layer::{Restriction, is_plain, listed};
use crate::narrowing::restricted;
use sal_module::{Found, Keyword, value_of};
use sal_restrict::YangType;
use sal_stmt::Stmt;
use sal_types::{Duplicate, NoMemory};
use std::alloc::Global;

/// The result of a statement with a fault: its type is not used.
pub(crate) fn faulty(alloc: Global, fault: Option<Found>) -> Judgement
    ensures fault { result.fault ≡ fault }
    ensures numbers { HasNumbers (out-YangType result.ty) }
    ensures positions { HasPositions (out-YangType result.ty) result.entries.items }
{
    Judgement {
        fault,
        ty: YangType::Empty,
        entries: Vec::new(alloc),
    }
}

/// Whether this is the built-in type decimal64.
fn is_decimal(basis: &Basis) -> bool
    ensures { result ≡ restrictions.is_decimal (spec.base_seen basis.now) }
{
    basis.itself && matches!(basis.ty, YangType::Dec { .. })
}

/// A type with the fraction digits of its statement.
fn digits_type(alloc: Global, ty: &YangType, stmt: &Stmt) -> Result<YangType, NoMemory>
    requires { restrictions.digits_of stmt.now ≤ 18 }
    ensures value { IfOk result (λ it. it ≡ roll-YangType (restrictions.with_digits (restrictions.digits_of stmt.now) (out-YangType ty.now))) }
    ensures numbers { IfOk result (λ it. HasNumbers (out-YangType ty.now) → HasNumbers (out-YangType it)) }
{
    match ty {
        YangType::Dec { range, .. } => Ok(YangType::Dec {
            digits: small_number(value_of(Keyword::FractionDigits, stmt).as_bytes()),
            range: range.copy()?,
        }),
        _ => ty.copy(alloc),
    }
}

/// The type that it restricts, with the fraction digits of the statement.
fn digits_layer(alloc: Global, basis: &Basis, stmt: &Stmt) -> Result<Basis, NoMemory>
    requires { restrictions.digits_of stmt.now ≤ 18 }
    ensures value { IfOk result (λ it. spec.base_seen it ≡ spec.with_layer (spec.base_seen basis.now) (restrictions.digits_of stmt.now)) }
    ensures numbers { IfOk result (λ it. HasNumbers (out-YangType basis.now.ty) → HasNumbers (out-YangType it.ty)) }
    ensures positions { IfOk result (λ it. HasPositions (out-YangType basis.now.ty) basis.now.entries.items → HasPositions (out-YangType it.ty) it.entries.items) }
{
    let ty = digits_type(alloc, &basis.ty, stmt)?;
    let layer = with_entries(alloc, ty, basis.entries.as_slice(), basis.itself)?;
    Ok(layer)
}

impl<'x, 'a> Restriction<'x, 'a> {
    /// The type of the statement, with these names.
    fn typed(&self, basis: &Basis, entries: &[Entry]) -> Result<YangType, NoMemory>
        requires numbers { HasNumbers (out-YangType basis.now.ty) }
        requires positions { HasPositions (out-YangType basis.now.ty) entries.now }
        requires places { HasPlaces basis.now.itself (out-YangType basis.now.ty) entries.now }
        ensures value { IfOk result (λ it. it
            ≡ roll-YangType (types_spec.restricted self.now.typedefs.now self.now.number (spec.base_seen basis.now) self.now.stmt.now self.now.types.now entries.now (out-YangType basis.now.ty))) }
        ensures numbers { IfOk result (λ it. HasNumbers (out-YangType it)) }
    {
        if is_plain(&basis.ty) {
            let ty = restricted(self.alloc, &basis.ty, basis.itself, self.stmt)?;
            return Ok(ty);
        }
        self.named_type(basis, entries)
    }

    /// The result for a statement over a type whose fraction digits are set.
    fn judge_layer(&self, best: Option<Found>, basis: &Basis) -> Result<Judgement, NoMemory>
        requires numbers { HasNumbers (out-YangType basis.now.ty) }
        requires positions { HasPositions (out-YangType basis.now.ty) basis.now.entries.items }
        ensures fault { IfOk result (λ d. d.fault ≡ least best (spec.layer_faults (spec.base_seen basis.now) self.now.number self.now.stmt.now)) }
        ensures meant { IfOk result (λ d. d.fault ≡ None → d.ty ≡ spec.layer_meaning self.now.typedefs.now self.now.number (spec.base_seen basis.now) self.now.stmt.now self.now.types.now) }
        ensures entries { IfOk result (λ d. d.fault ≡ None → d.entries.items ≡ types_spec.entries_in (spec.base_seen basis.now) self.now.stmt.now (out-YangType basis.now.ty)) }
        ensures numbers { IfOk result (λ d. HasNumbers (out-YangType d.ty)) }
        ensures positions { IfOk result (λ d. HasPositions (out-YangType d.ty) d.entries.items) }
    {
        let (number, stmt) = (self.number, self.stmt);
        let best = with_absent(best, &basis.ty, basis.itself, number, stmt);
        let best = with_subs(best, self.alloc, &basis.ty, basis.itself, number, stmt)?;
        let (best, entries) = listed(best, self.alloc, basis, number, stmt)?;
        if best.is_some() {
            return Ok(faulty(self.alloc, best));
        }
        let ty = self.typed(basis, entries.as_slice())?;
        Ok(Judgement {
            fault: best,
            ty,
            entries,
        })
    }

    /// The result for a statement over a decimal64 whose digits it states.
    fn judge_digits(&self, best: Option<Found>, basis: &Basis) -> Result<Judgement, NoMemory>
        requires digits { restrictions.digits_of self.now.stmt.now ≤ 18 }
        requires numbers { HasNumbers (out-YangType basis.now.ty) }
        requires positions { HasPositions (out-YangType basis.now.ty) basis.now.entries.items }
        ensures fault { IfOk result (λ d. d.fault ≡ least best (spec.layer_faults (spec.with_layer (spec.base_seen basis.now) (restrictions.digits_of self.now.stmt.now)) self.now.number self.now.stmt.now)) }
        ensures meant { IfOk result (λ d. d.fault ≡ None → d.ty ≡ spec.layer_meaning self.now.typedefs.now self.now.number (spec.with_layer (spec.base_seen basis.now) (restrictions.digits_of self.now.stmt.now)) self.now.stmt.now self.now.types.now) }
        ensures entries { IfOk result (λ d. d.fault ≡ None → d.entries.items
            ≡ types_spec.entries_in (spec.with_layer (spec.base_seen basis.now) (restrictions.digits_of self.now.stmt.now)) self.now.stmt.now (out-YangType (spec.with_layer (spec.base_seen basis.now) (restrictions.digits_of self.now.stmt.now)).type)) }
        ensures numbers { IfOk result (λ d. HasNumbers (out-YangType d.ty)) }
        ensures positions { IfOk result (λ d. HasPositions (out-YangType d.ty) d.entries.items) }
    {
        let layer = digits_layer(self.alloc, basis, self.stmt)?;
        self.judge_layer(best, &layer)
    }

    /// The result for a statement over the type that it restricts.
    pub(crate) fn judge(&self, best: Option<Found>, basis: &Basis) -> Result<Judgement, NoMemory>
        requires numbers { HasNumbers (out-YangType basis.now.ty) }
        requires positions { HasPositions (out-YangType basis.now.ty) basis.now.entries.items }
        ensures fault { IfOk result (λ d. d.fault ≡ least best (restrictions.restriction_faults (spec.base_seen basis.now) self.now.number self.now.stmt.now)) }
        ensures meant { IfOk result (λ d. d.fault ≡ None → d.ty ≡ spec.meaning_of self.now.typedefs.now self.now.number (spec.base_seen basis.now) self.now.stmt.now self.now.types.now) }
        ensures entries { IfOk result (λ d. d.fault ≡ None → d.entries.items ≡ types_spec.entries_in (spec.base_seen basis.now) self.now.stmt.now (restrictions.layer_of (spec.base_seen basis.now) self.now.stmt.now)) }
        ensures numbers { IfOk result (λ d. HasNumbers (out-YangType d.ty)) }
        ensures positions { IfOk result (λ d. HasPositions (out-YangType d.ty) d.entries.items) }
    {
        if !is_decimal(basis) {
            return self.judge_layer(best, basis);
        }
        if with_all_digits(None, self.number, self.stmt).is_some() {
            return Ok(faulty(self.alloc, with_all_digits(best, self.number, self.stmt)));
        }
        self.judge_digits(best, basis)
    }
}
