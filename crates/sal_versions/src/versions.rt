//! From the texts of a domain's modules and upgrades to the versions of its schema.
ghost use Rattle.std.specs.Prelude.{◌≡◌, ◌≤◌, ◌++◌, Ok as Good, IfOk, IsTrue, List, length, map, take};
ghost use Rattle.sal_script.specs.Limits.{all_texts, are_short};
ghost use Rattle.sal_stmt.specs.declared.stmt.Stmt.{Stmt as Statement};
ghost use Rattle.sal_stmt.specs.Text.{read};
ghost use Rattle.sal_build.specs.Readable.{are_readable};
ghost use Rattle.sal_build.specs.Versions.{IsVersionOf, tabled};
ghost use Rattle.sal_versions.specs.Schemas.{Makes};
ghost use Rattle.sal_versions.specs.Versions as spec;

use crate::schema::statements_of;
use crate::schema_fault::{SchemaFault, of_modules, of_upgrade};
use sal_build::laws::what_is_read_is_readable;
use sal_build::{SchemaVersion, build_first, build_on};
use sal_schema::Schema;
use sal_stmt::Stmt;
use sal_types::{NoMemory, Seq, Str};
use std::alloc::Global;

/// The versions of a domain's schema: the statements of all modules, the schemas of the older versions in their order, and the latest version.
#[derive(Drop)]
pub struct Versions {
    pub stmts: Vec<Stmt>,
    pub olds: Vec<Schema>,
    pub latest: SchemaVersion,
}

/// The versions of the schema of a domain with these modules and upgrades, or the text of the first fault. Each version is read and built before
/// the next one.
pub fn versions_of(
    alloc: Global,
    modules: &[Str],
    upgrades: &[Seq<Str>],
) -> Result<Versions, SchemaFault>
    requires { IsTrue (are_short (all_texts modules.now upgrades.now)) }
    ensures { Makes spec.seen result (spec.versions_of modules.now upgrades.now) }
{
    what_is_read_is_readable();
    let mut versions = first_of(alloc, modules)?;
    for (i, texts) in upgrades.iter().enumerate() {
        versions = upgraded(alloc, i + 1, versions, texts.items())?;
    }
    Ok(versions)
}

// ---- version 0

// The first version of these texts.
fn first_of(alloc: Global, texts: &[Str]) -> Result<Versions, SchemaFault>
    requires { IsTrue (are_short texts.now) }
    ensures made { Makes spec.seen result (spec.first_of texts.now) }
    ensures of { IfOk result (λ v. IsVersionOf v.stmts.items (tabled v.latest)) }
    ensures read { IfOk result (λ v. map read texts.now ≡ map Good v.stmts.items) }
{
    what_is_read_is_readable();
    let stmts = statements_of(alloc, 0, texts)?;
    built(alloc, stmts)
}

fn built(alloc: Global, stmts: Vec<Stmt>) -> Result<Versions, SchemaFault>
    requires { IsTrue (are_readable stmts.items) }
    ensures made { Makes spec.seen result (spec.first_built stmts.items) }
    ensures of { IfOk result (λ v. IsVersionOf v.stmts.items (tabled v.latest)) }
    ensures same { IfOk result (λ v. v.stmts ≡ stmts) }
{
    match build_first(alloc, &stmts) {
        Ok(latest) => Ok(Versions {
            stmts,
            olds: Vec::new(alloc),
            latest,
        }),
        Err(fault) => Err(of_modules(alloc, &fault)),
    }
}

// ---- an upgrade

// The versions with one more, that of the upgrade with this number.
fn upgraded(
    alloc: Global,
    number: usize,
    versions: Versions,
    texts: &[Str],
) -> Result<Versions, SchemaFault>
    requires short { IsTrue (are_short texts.now) }
    requires of { IsVersionOf versions.stmts.items (tabled versions.latest) }
    requires readable { (more : List Statement) → map read texts.now ≡ map Good more → IsTrue (are_readable (versions.stmts.items ++ more)) }
    ensures made { Makes spec.seen result (spec.or_upgrade number (spec.next_of (spec.seen versions) texts.now)) }
    ensures of { IfOk result (λ v. IsVersionOf v.stmts.items (tabled v.latest)) }
    ensures read { IfOk result (λ v. (more : List Statement) × (map read texts.now ≡ map Good more) × (v.stmts.items ≡ versions.stmts.items ++ more)) }
{
    match next_of(alloc, versions, texts) {
        Ok(versions) => Ok(versions),
        Err(fault) => Err(of_upgrade(alloc, number, fault)),
    }
}

// The versions with one more, with these texts as its new modules.
fn next_of(alloc: Global, versions: Versions, texts: &[Str]) -> Result<Versions, SchemaFault>
    requires short { IsTrue (are_short texts.now) }
    requires of { IsVersionOf versions.stmts.items (tabled versions.latest) }
    requires readable { (more : List Statement) → map read texts.now ≡ map Good more → IsTrue (are_readable (versions.stmts.items ++ more)) }
    ensures made { Makes spec.seen result (spec.next_of (spec.seen versions) texts.now) }
    ensures of { IfOk result (λ v. IsVersionOf v.stmts.items (tabled v.latest)) }
    ensures read { IfOk result (λ v. (more : List Statement) × (map read texts.now ≡ map Good more) × (v.stmts.items ≡ versions.stmts.items ++ more)) }
{
    let more = statements_of(alloc, versions.stmts.len(), texts)?;
    with_more(alloc, versions, more)
}

fn with_more(alloc: Global, versions: Versions, more: Vec<Stmt>) -> Result<Versions, SchemaFault>
    requires of { IsVersionOf versions.stmts.items (tabled versions.latest) }
    requires readable { IsTrue (are_readable (versions.stmts.items ++ more.items)) }
    ensures made { Makes spec.seen result (spec.with_more (spec.seen versions) more.items) }
    ensures of { IfOk result (λ v. IsVersionOf v.stmts.items (tabled v.latest)) }
    ensures stmts { IfOk result (λ v. v.stmts.items ≡ versions.stmts.items ++ more.items) }
{
    let old = versions.stmts.len();
    let joined = joined(versions, more)?;
    built_on(alloc, joined, old)
}

// The same versions, with more statements.
fn joined(versions: Versions, more: Vec<Stmt>) -> Result<Versions, NoMemory>
    ensures stmts { IfOk result (λ v. v.stmts.items ≡ versions.stmts.items ++ more.items) }
    ensures olds { IfOk result (λ v. v.olds ≡ versions.olds) }
    ensures latest { IfOk result (λ v. v.latest ≡ versions.latest) }
{
    let mut joined = versions;
    let mut more = more;
    joined.stmts.append(&mut more)?;
    Ok(joined)
}

// The next version of these statements, of which the first `old` are those of the latest one.
fn built_on(alloc: Global, versions: Versions, old: usize) -> Result<Versions, SchemaFault>
    requires old { old ≤ length versions.stmts.items }
    requires of { IsVersionOf (take old versions.stmts.items) (tabled versions.latest) }
    requires readable { IsTrue (are_readable versions.stmts.items) }
    ensures made { Makes spec.seen result (spec.next_built old (spec.seen versions)) }
    ensures of { IfOk result (λ v. IsVersionOf v.stmts.items (tabled v.latest)) }
    ensures same { IfOk result (λ v. v.stmts ≡ versions.stmts) }
{
    match build_on(alloc, &versions.stmts, &versions.latest, old) {
        Ok(latest) => Ok(with_latest(versions, latest)?),
        Err(fault) => Err(of_modules(alloc, &fault)),
    }
}

// The versions with a later one. The nodes of the version before are dropped.
fn with_latest(versions: Versions, latest: SchemaVersion) -> Result<Versions, NoMemory>
    ensures seen { IfOk result (λ v. spec.seen v ≡ spec.with_latest (spec.seen versions) (tabled latest)) }
    ensures stmts { IfOk result (λ v. v.stmts ≡ versions.stmts) }
    ensures latest { IfOk result (λ v. v.latest ≡ latest) }
{
    let Versions {
        stmts,
        mut olds,
        latest: older,
    } = versions;
    let SchemaVersion { schema, .. } = older;
    olds.push(schema)?;
    Ok(Versions {
        stmts,
        olds,
        latest,
    })
}
