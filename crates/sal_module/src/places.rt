//! The statement at a byte offset.
ghost use Rattle.std.specs.Prelude.{◌≡◌, ℕ, ◌<◌, ◌≤◌, ◌^◌, true, length, IsTrue};
ghost use Rattle.std.specs.Option.{option_copied};
ghost use Rattle.sal_module.specs.Places as spec;

use sal_stmt::Stmt;

/// Above every offset of a statement.
pub(crate) const LAST_PLACE: u64 = 4_294_967_296;

/// Whether the offsets ascend in this statement and those below it, each before the next statement's, and all below `high`.
pub(crate) fn is_in_order(levels: u32, high: u64, stmt: &Stmt) -> bool
    ensures { result ≡ spec.is_in_order levels high stmt.now }
{
    if levels == 0 {
        return u64::from(stmt.at) < high;
    }
    let subs = stmt.subs.items();
    for i in 0..subs.len() {
        if !is_in_order(levels - 1, start_or(high, &subs[i + 1..]), &subs[i]) {
            return false;
        }
    }
    u64::from(stmt.at) < start_or(high, subs)
}

fn start_or(high: u64, stmts: &[Stmt]) -> u64
    ensures { result ≡ spec.start_or high stmts.now }
{
    match stmts.first() {
        Some(stmt) => u64::from(stmt.at),
        None => high,
    }
}

/// The statement at this offset, of any tree.
pub(crate) fn find_anywhere<'s>(levels: u32, at: u32, stmt: &'s Stmt) -> Option<&'s Stmt>
    ensures { option_copied result ≡ spec.find_at levels at stmt.now }
{
    if stmt.at == at {
        return Some(stmt);
    }
    if levels == 0 {
        return None;
    }
    for sub in stmt.subs.items() {
        if let Some(found) = find_anywhere(levels - 1, at, sub) {
            return Some(found);
        }
    }
    None
}

/// The half of these statements in which one at this offset must be.
fn half<'s>(stmts: &'s [Stmt], at: u32) -> &'s [Stmt]
    requires { 1 < length stmts.now }
    ensures value { result.now ≡ spec.half_of at stmts.now }
    ensures shorter { length result.now < length stmts.now }
{
    let (left, right) = stmts.split_at(stmts.len() / 2);
    if start_or(LAST_PLACE, right) <= u64::from(at) {
        right
    } else {
        left
    }
}

/// The statement at this offset, among statements with ascending offsets and those below them.
fn find_among<'s>(levels: u32, at: u32, stmts: &'s [Stmt]) -> Option<&'s Stmt>
    requires { IsTrue (spec.all_before (spec.is_in_order levels) (2 ^ 32) stmts.now) }
    ensures { option_copied result ≡ spec.find_first (spec.find_at levels at) stmts.now }
{
    let mut levels = levels;
    let mut part = stmts;
    'halves: while part.len() > 0 {
        if part.len() > 1 {
            part = half(part, at);
            continue;
        }
        let stmt = &part[0];
        if stmt.at == at {
            return Some(stmt);
        }
        if levels == 0 {
            return None;
        }
        levels -= 1;
        part = stmt.subs.items();
    }
    None
}

/// The statement at this offset, of a tree with ascending offsets. It descends only into the statement that can contain it.
pub(crate) fn find_in_order<'s>(levels: u32, at: u32, stmt: &'s Stmt) -> Option<&'s Stmt>
    requires { IsTrue (spec.is_in_order levels (2 ^ 32) stmt.now) }
    ensures { option_copied result ≡ spec.find_at levels at stmt.now }
{
    if stmt.at == at {
        return Some(stmt);
    }
    if levels == 0 {
        return None;
    }
    find_among(levels - 1, at, stmt.subs.items())
}
