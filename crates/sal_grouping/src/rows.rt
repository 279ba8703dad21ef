//! The statements that shape the tree, in one list over all modules.
ghost use Rattle.std.specs.Prelude.{◌≡◌, ◌<◌, ◌++◌, ◌∷◌, [], ℕ, IfOk, length, slice_index_or};
ghost use Rattle.sal_grouping.specs.Rows as spec;

use sal_module::{Keyword, argument_of, keyword_of};
use sal_stmt::Stmt;
use sal_types::{NoMemory, Str};
use std::alloc::Global;

/// The largest depth of nested blocks of a statement.
const MAX_BLOCKS: u32 = 64;

/// A statement. Its number is its index in the list.
#[derive(Drop)]
pub(crate) struct Row {
    /// The index of its module.
    pub module: u32,
    /// The number of the statement whose block it is in.
    pub around: Option<usize>,
    /// Its keyword.
    pub keyword: Keyword,
    /// Its argument.
    pub name: Str,
    /// Its byte offset in the text.
    pub at: u32,
}

/// Whether statements of this keyword are in the list.
fn is_part(keyword: Keyword) -> bool
    ensures { result ≡ spec.is_part keyword }
{
    match keyword {
        Keyword::Module
        | Keyword::Container
        | Keyword::Leaf
        | Keyword::LeafList
        | Keyword::List
        | Keyword::Choice
        | Keyword::Case
        | Keyword::Grouping
        | Keyword::Uses
        | Keyword::Augment
        | Keyword::Rpc
        | Keyword::Input
        | Keyword::Output
        | Keyword::Notification
        | Keyword::Typedef
        | Keyword::Identity => true,
        _ => false,
    }
}

fn part_of(stmt: &Stmt) -> Option<Keyword>
    ensures { result ≡ spec.part_of stmt.now }
{
    match keyword_of(stmt.keyword.as_str()) {
        Some(keyword) if is_part(keyword) => Some(keyword),
        _ => None,
    }
}

fn push_row(
    rows: &mut Vec<Row>,
    alloc: Global,
    module: u32,
    around: Option<usize>,
    stmt: &Stmt,
    keyword: Keyword,
) -> Result<(), NoMemory>
    ensures { IfOk result (λ _. rows.new.items ≡ rows.old.items ++ spec.row_of «module» around stmt.now keyword ∷ []) }
{
    let name = Str::new(alloc, argument_of(stmt))?;
    rows.push(Row {
        module,
        around,
        keyword,
        name,
        at: stmt.at,
    })?;
    Ok(())
}

/// Appends a statement and those in `levels` levels below it.
fn push_rows(
    rows: &mut Vec<Row>,
    alloc: Global,
    levels: u32,
    module: u32,
    around: Option<usize>,
    stmt: &Stmt,
) -> Result<(), NoMemory>
    ensures { IfOk result (λ _. rows.new.items ≡ spec.with_rows levels «module» around rows.old.items stmt.now) }
{
    let number = rows.len();
    match part_of(stmt) {
        None => return Ok(()),
        Some(keyword) => push_row(rows, alloc, module, around, stmt, keyword)?,
    }
    if levels == 0 {
        return Ok(());
    }
    for sub in stmt.subs.items() {
        push_rows(rows, alloc, levels - 1, module, Some(number), sub)?;
    }
    Ok(())
}

/// The statements of all modules, and the number of the first one of each.
pub(crate) fn rows_of(alloc: Global, stmts: &[Stmt]) -> Result<(Vec<Row>, Vec<usize>), NoMemory>
    requires { length stmts.now < 65 }
    ensures rows { IfOk result (λ p. p.0.items ≡ spec.rows_of stmts.now) }
    ensures count { IfOk result (λ p. length p.1.items ≡ length stmts.now) }
    ensures tops { IfOk result (λ p. (m d : ℕ) → m < length stmts.now → slice_index_or p.1.items m d ≡ spec.top_of stmts.now m) }
{
    let mut rows = Vec::new(alloc);
    let mut tops = Vec::with_capacity(alloc, stmts.len())?;
    for (i, stmt) in stmts.iter().enumerate() {
        tops.push(rows.len())?;
        push_rows(&mut rows, alloc, MAX_BLOCKS, i as u32, None, stmt)?;
    }
    Ok((rows, tops))
}
