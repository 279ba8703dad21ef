//! Which grouping a `uses` names.
ghost use Rattle.std.specs.Prelude.{◌≡◌};
ghost use Rattle.sal_module.specs.declared.keyword.Keyword.TheVariants as word;
ghost use Rattle.sal_grouping.specs.Rows as rows_spec;
ghost use Rattle.sal_grouping.specs.Indexes as index;
ghost use Rattle.sal_grouping.specs.Groupings as spec;

use crate::index::Names;
use crate::rows::Row;
use sal_module::{Keyword, Modules};
use sal_types::Str;

/// The largest depth of nested statements.
pub(crate) const MAX_DEPTH: u32 = 65;

/// A name and the index of its module, if its prefix is known.
pub(crate) type Step = (Option<u32>, Str);

/// The module that a name in a module refers to.
pub(crate) fn module_of(modules: &Modules, number: u32, text: &str) -> Option<u32>
    ensures { result ≡ spec.module_of modules.now number text.now }
{
    match text.split_once(':') {
        Some((prefix, _name)) => modules.imported(number, prefix),
        None => Some(number),
    }
}

/// A name without its prefix.
pub fn local_name<'s>(text: &'s str) -> &'s str
    ensures { result.now ≡ spec.local_name text.now }
{
    match text.split_once(':') {
        Some((_prefix, name)) => name,
        None => text,
    }
}

/// The statement that a name refers to in a block.
pub(crate) fn first_of(
    rows: &[Row],
    keyword: Keyword,
    maps: &[Names],
    b: usize,
    name: &str,
) -> Option<usize>
    requires { index.AreFirsts rows.now keyword maps.now }
    ensures { result ≡ rows_spec.first_of rows.now keyword b name.now }
{
    if b >= maps.len() {
        return None;
    }
    maps[b].get(name).copied()
}

pub(crate) fn around_of(rows: &[Row], b: usize) -> Option<usize>
    ensures { result ≡ rows_spec.around_of rows.now b }
{
    match rows.get(b) {
        Some(row) => row.around,
        None => None,
    }
}

/// The grouping of this name in the closest block, from this one outwards.
fn from_block(
    rows: &[Row],
    groupings: &[Names],
    name: &str,
    levels: u32,
    block: Option<usize>,
) -> Option<usize>
    requires { index.AreFirsts rows.now word.Grouping groupings.now }
    ensures { result ≡ spec.from_block levels rows.now name.now block }
{
    if levels == 0 {
        return None;
    }
    match block {
        None => None,
        Some(b) => match first_of(rows, Keyword::Grouping, groupings, b, name) {
            Some(found) => Some(found),
            None => from_block(rows, groupings, name, levels - 1, around_of(rows, b)),
        },
    }
}

/// The grouping that a name refers to, in a block of a module.
fn grouping_in(
    modules: &Modules,
    rows: &[Row],
    tops: &[usize],
    groupings: &[Names],
    row: &Row,
    m: u32,
) -> Option<usize>
    requires tops { index.AreTops modules.now tops.now }
    requires rows { rows.now ≡ rows_spec.rows_of modules.now }
    requires firsts { index.AreFirsts rows.now word.Grouping groupings.now }
    ensures { result ≡ spec.grouping_in modules.now rows.now row.now.module row.now.around (spec.local_name row.now.name) (Some m) }
{
    let name = local_name(row.name.as_str());
    if m == row.module {
        return from_block(rows, groupings, name, MAX_DEPTH, row.around);
    }
    let top = top_of(modules, rows, tops, m);
    first_of(rows, Keyword::Grouping, groupings, top, name)
}

/// The first statement of a module, or the length of the list if no module has this index.
pub(crate) fn top_of(modules: &Modules, rows: &[Row], tops: &[usize], m: u32) -> usize
    requires tops { index.AreTops modules.now tops.now }
    requires rows { rows.now ≡ rows_spec.rows_of modules.now }
    ensures { result ≡ rows_spec.top_of modules.now m }
{
    match tops.get(m as usize) {
        Some(top) => *top,
        None => rows.len(),
    }
}

/// The grouping that a statement names, if it is a `uses`.
pub(crate) fn named_by(
    modules: &Modules,
    rows: &[Row],
    tops: &[usize],
    groupings: &[Names],
    row: &Row,
) -> Option<usize>
    requires tops { index.AreTops modules.now tops.now }
    requires rows { rows.now ≡ rows_spec.rows_of modules.now }
    requires firsts { index.AreFirsts rows.now word.Grouping groupings.now }
    ensures { result ≡ spec.named_by modules.now rows.now row.now }
{
    if row.keyword != Keyword::Uses {
        return None;
    }
    match module_of(modules, row.module, row.name.as_str()) {
        None => None,
        Some(m) => grouping_in(modules, rows, tops, groupings, row, m),
    }
}
