//! The list of statements of modules, with its indexes.
ghost use Rattle.std.specs.Prelude.{◌≡◌, IfOk};
ghost use Rattle.sal_module.specs.declared.keyword.Keyword.TheVariants.{Grouping, Typedef};
ghost use Rattle.sal_grouping.specs.Defined.{AreDefined};
ghost use Rattle.sal_grouping.specs.Indexes.{lists, AreTops, AreInside, AreFirsts};
ghost use Rattle.sal_grouping.specs.Rows.{rows_of};
ghost use Rattle.sal_grouping.specs.Tables as spec;

use crate::index::{Names, firsts_of, inside_of};
use crate::rows::{Row, rows_of};
use sal_module::{Keyword, Modules};
use sal_types::NoMemory;
use std::alloc::Global;

/// The statements of all modules, with indexes.
#[derive(Drop)]
pub(crate) struct Tables {
    /// The statements.
    pub rows: Vec<Row>,
    /// The number of the first statement of each module.
    pub tops: Vec<usize>,
    /// The numbers of the statements in the block of each one.
    pub inside: Vec<Vec<usize>>,
    /// The groupings in the block of each one, by name.
    pub groupings: Vec<Names>,
    /// The typedefs there, by name.
    pub typedefs: Vec<Names>,
    /// The identities there, by name.
    pub identities: Vec<Names>,
}

/// The names that are defined in the block of each statement.
pub(crate) struct Defined {
    groupings: Vec<Names>,
    typedefs: Vec<Names>,
    identities: Vec<Names>,
}

// Each of these functions makes one value with one early exit, which keeps the proofs short.

fn defined_in(alloc: Global, rows: &[Row]) -> Result<Defined, NoMemory>
    ensures { IfOk result (λ d. AreDefined rows.now d) }
{
    let groupings = firsts_of(alloc, rows, Keyword::Grouping)?;
    with_typedefs(alloc, rows, groupings)
}

fn with_typedefs(alloc: Global, rows: &[Row], groupings: Vec<Names>) -> Result<Defined, NoMemory>
    requires { AreFirsts rows.now Grouping groupings.items }
    ensures { IfOk result (λ d. AreDefined rows.now d) }
{
    let typedefs = firsts_of(alloc, rows, Keyword::Typedef)?;
    with_identities(alloc, rows, groupings, typedefs)
}

fn with_identities(
    alloc: Global,
    rows: &[Row],
    groupings: Vec<Names>,
    typedefs: Vec<Names>,
) -> Result<Defined, NoMemory>
    requires groupings { AreFirsts rows.now Grouping groupings.items }
    requires typedefs { AreFirsts rows.now Typedef typedefs.items }
    ensures { IfOk result (λ d. AreDefined rows.now d) }
{
    let identities = firsts_of(alloc, rows, Keyword::Identity)?;
    Ok(Defined {
        groupings,
        typedefs,
        identities,
    })
}

fn with_inside(
    alloc: Global,
    modules: &Modules,
    rows: Vec<Row>,
    tops: Vec<usize>,
) -> Result<Tables, NoMemory>
    requires rows { rows.items ≡ rows_of modules.now }
    requires tops { AreTops modules.now tops.items }
    ensures { IfOk result (λ t. spec.AreTables modules.now t) }
{
    let inside = inside_of(alloc, rows.as_slice())?;
    with_defined(alloc, modules, rows, tops, inside)
}

fn with_defined(
    alloc: Global,
    modules: &Modules,
    rows: Vec<Row>,
    tops: Vec<usize>,
    inside: Vec<Vec<usize>>,
) -> Result<Tables, NoMemory>
    requires rows { rows.items ≡ rows_of modules.now }
    requires tops { AreTops modules.now tops.items }
    requires inside { AreInside rows.items (lists inside.items) }
    ensures { IfOk result (λ t. spec.AreTables modules.now t) }
{
    let defined = defined_in(alloc, rows.as_slice())?;
    let Defined {
        groupings,
        typedefs,
        identities,
    } = defined;
    Ok(Tables {
        rows,
        tops,
        inside,
        groupings,
        typedefs,
        identities,
    })
}

/// The tables of these modules.
pub(crate) fn tables_of(alloc: Global, modules: &Modules) -> Result<Tables, NoMemory>
    ensures { IfOk result (λ t. spec.AreTables modules.now t) }
{
    let (rows, tops) = rows_of(alloc, modules.items())?;
    with_inside(alloc, modules, rows, tops)
}
