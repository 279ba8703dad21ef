//! Types that a statement narrows (RFC 7950 sections 9.2.4, 9.4.4 and 9.4.5).
ghost use Rattle.std.specs.Prelude.{◌≡◌, ◌++◌, ◌<◌, ◌≤◌, length, map, IfOk, if◌then◌else◌};
ghost use Rattle.sal_module.specs.declared.keyword.Keyword.TheVariants as word;
ghost use Rattle.sal_module.specs.Statements.{all_named, value_of};
ghost use Rattle.sal_restrict.specs.declared.yang_type.YangType.TheViews.{out-YangType};
ghost use Rattle.sal_typedefs.specs.Restrictions.{HasNumbers};
ghost use Rattle.sal_typedefs.specs.Types as spec;

use sal_module::{Keyword, argument_of, first_named, has_named, is_named, value_of};
use sal_restrict::{Pattern, RangeFault, Ranges, YangType, read_ranges};
use sal_stmt::Stmt;
use sal_types::{Duplicate, NoMemory, Seq, Str, append};
use std::alloc::Global;

/// The range of a text within these numbers, or all of them if there is no text.
fn read_or_all(alloc: Global, text: &str, within: &Ranges, digits: u8) -> Result<Ranges, NoMemory>
    requires some { 0 < length within.now }
    requires few { digits ≤ 18 }
    ensures value { IfOk result (λ ranges. ranges ≡ spec.read_or_all text.now digits within.now) }
    ensures some { IfOk result (λ ranges. 0 < length ranges) }
{
    match read_ranges(alloc, text, within, digits) {
        Ok(ranges) => Ok(ranges),
        Err(RangeFault::NoMemory) => Err(NoMemory),
        Err(_) => within.copy(),
    }
}

/// The numbers of a type, narrowed if its statement has a range or length.
pub(crate) fn narrowed(
    alloc: Global,
    keyword: Keyword,
    stmt: &Stmt,
    digits: u8,
    within: &Ranges,
) -> Result<Ranges, NoMemory>
    requires some { 0 < length within.now }
    requires few { digits ≤ 18 }
    ensures value { IfOk result (λ ranges. ranges ≡ spec.narrowed keyword stmt.now digits within.now) }
    ensures some { IfOk result (λ ranges. 0 < length ranges) }
{
    match first_named(keyword, stmt.subs.items()) {
        None => within.copy(),
        Some(sub) => read_or_all(alloc, argument_of(sub), within, digits),
    }
}

fn pattern_of(alloc: Global, stmt: &Stmt) -> Result<Pattern, NoMemory>
    ensures { IfOk result (λ pattern. pattern ≡ spec.pattern_of stmt.now) }
{
    Ok(Pattern {
        text: Str::new(alloc, argument_of(stmt))?,
        inverted: has_named(Keyword::Modifier, stmt.subs.items()),
    })
}

/// The patterns of a type and those of the statement that restricts it.
pub(crate) fn with_patterns_of(
    alloc: Global,
    patterns: &[Pattern],
    stmt: &Stmt,
) -> Result<Seq<Pattern>, NoMemory>
    ensures { IfOk result (λ all. all ≡ patterns.now ++ map spec.pattern_of (all_named word.Pattern stmt.now)) }
{
    let mut all = copies(alloc, patterns)?;
    for sub in stmt.subs.items() {
        if is_named(Keyword::Pattern, sub) {
            append(&mut all, pattern_of(alloc, sub)?)?;
        }
    }
    Ok(Seq::from_items(all))
}

fn copies(alloc: Global, patterns: &[Pattern]) -> Result<Vec<Pattern>, NoMemory>
    ensures { IfOk result (λ list. list.items ≡ patterns.now) }
{
    let mut list = Vec::with_capacity(alloc, patterns.len())?;
    for pattern in patterns {
        append(&mut list, pattern.copy()?)?;
    }
    Ok(list)
}

/// The path in a leafref's statement, or that of the type that it restricts.
fn path_of(alloc: Global, path: &Str, itself: bool, stmt: &Stmt) -> Result<Str, NoMemory>
    ensures { IfOk result (λ it. it ≡ (if itself then value_of word.Path stmt.now else path.now)) }
{
    if itself {
        Str::new(alloc, value_of(Keyword::Path, stmt))
    } else {
        path.copy()
    }
}

/// The lengths and patterns of a text type, narrowed by the statement's restrictions.
fn text_parts(
    alloc: Global,
    lengths: &Ranges,
    patterns: &[Pattern],
    stmt: &Stmt,
) -> Result<(Ranges, Seq<Pattern>), NoMemory>
    requires { 0 < length lengths.now }
    ensures lengths { IfOk result (λ it. it.0 ≡ spec.narrowed word.Length stmt.now 0 lengths.now) }
    ensures patterns { IfOk result (λ it. it.1 ≡ patterns.now ++ map spec.pattern_of (all_named word.Pattern stmt.now)) }
    ensures some { IfOk result (λ it. 0 < length it.0) }
{
    let lengths = narrowed(alloc, Keyword::Length, stmt, 0, lengths)?;
    let patterns = with_patterns_of(alloc, patterns, stmt)?;
    Ok((lengths, patterns))
}

/// The type of a statement that restricts numbers, a text or bytes, or has no restriction.
///
/// Enumerations, bits, identityrefs and unions are unchanged here.
pub(crate) fn restricted(
    alloc: Global,
    ty: &YangType,
    itself: bool,
    stmt: &Stmt,
) -> Result<YangType, NoMemory>
    requires { HasNumbers (out-YangType ty.now) }
    ensures value { IfOk result (λ it. spec.IsPlain (out-YangType ty.now) → spec.IsRestricted ty.now itself stmt.now it) }
    ensures numbers { IfOk result (λ it. HasNumbers (out-YangType it)) }
{
    match ty {
        YangType::Int {
            bits,
            signed,
            range,
        } => Ok(YangType::Int {
            bits: *bits,
            signed: *signed,
            range: narrowed(alloc, Keyword::Range, stmt, 0, range)?,
        }),
        YangType::Dec { digits, range } => Ok(YangType::Dec {
            digits: *digits,
            range: narrowed(alloc, Keyword::Range, stmt, *digits, range)?,
        }),
        YangType::Text { length, patterns } => {
            let (length, patterns) = text_parts(alloc, length, patterns.items(), stmt)?;
            Ok(YangType::Text { length, patterns })
        }
        YangType::Bin { length } => Ok(YangType::Bin {
            length: narrowed(alloc, Keyword::Length, stmt, 0, length)?,
        }),
        YangType::Leafref { path } => Ok(YangType::Leafref {
            path: path_of(alloc, path, itself, stmt)?,
        }),
        _ => ty.copy(alloc),
    }
}
