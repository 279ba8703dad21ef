//! Why modules give no schema, as a text.
ghost use Rattle.std.specs.Prelude.{◌≡◌, MatchResult, IfOk, option_map, string_bytes};
ghost use Rattle.std.specs.List.{list_all};
ghost use Rattle.sal_stmt.specs.Words as words;
ghost use Rattle.sal_versions.specs.Schemas as spec;

use sal_module::{BuildFault, What};
use sal_stmt::StmtFault;
use sal_types::{NoMemory, Str};
use std::alloc::{AllocError, AllocFailed, Global};
use thiserror::Error;

/// Why modules give no schema.
#[derive(Debug, Drop, PartialEq, Eq, Error)]
pub enum SchemaFault {
    /// The first fault: `module 0 unclosed 9`, `module 0 file-name line.yang`, or `build missing 0 0 namespace`, or of an upgrade `upgrade 1 module
    /// 1 unclosed 9`.
    #[error("bad schema: {}", .text.as_str())]
    Bad { text: Str },
    /// Memory ran out.
    #[error("out of memory")]
    NoMemory,
}

impl From<NoMemory> for SchemaFault {
    ghost use Rattle.sal_versions.specs.declared.schema_fault.SchemaFault.TheVariants.{NoMemory};

    ghost from_gives = { λ _ e. e ≡ NoMemory };

    fn from(_refused: NoMemory) -> SchemaFault {
        SchemaFault::NoMemory
    }
}

impl From<AllocError> for SchemaFault {
    ghost use Rattle.sal_versions.specs.declared.schema_fault.SchemaFault.TheVariants.{NoMemory};

    ghost from_gives = { λ _ e. e ≡ NoMemory };

    fn from(_refused: AllocError) -> SchemaFault {
        SchemaFault::NoMemory
    }
}

impl<T: Drop> From<AllocFailed<T>> for SchemaFault {
    ghost use Rattle.sal_versions.specs.declared.schema_fault.SchemaFault.TheVariants.{NoMemory};

    ghost from_gives = { λ _ e. e ≡ NoMemory };

    fn from(_refused: AllocFailed<T>) -> SchemaFault {
        SchemaFault::NoMemory
    }
}

// The fault with this text.
fn told(text: Result<String, AllocError>) -> SchemaFault
    ensures { MatchResult text (λ made. spec.IsTold (string_bytes made) result) (λ _. result ≡ SchemaFault.NoMemory) }
{
    match text {
        Ok(text) => SchemaFault::Bad {
            text: Str::from_string(text),
        },
        Err(_) => SchemaFault::NoMemory,
    }
}

// The word of a fault of a text, and its offset; none for `NoMemory`.
fn stmt_words(fault: StmtFault) -> Option<(&'static str, u32)>
    ensures { option_map (λ p. (p.0.now, p.1)) result ≡ spec.stmt_words fault }
{
    match fault {
        StmtFault::BadToken { at } => Some(("bad-token", at)),
        StmtFault::BadEscape { at } => Some(("bad-escape", at)),
        StmtFault::Unclosed { at } => Some(("unclosed", at)),
        StmtFault::TooDeep { at } => Some(("too-deep", at)),
        StmtFault::TextAfter { at } => Some(("text-after", at)),
        StmtFault::NoMemory => None,
    }
}

fn continues_identifier(c: u8) -> bool
    ensures { result ≡ words.continues_identifier c }
{
    c.is_ascii_alphanumeric() || c == b'_' || c == b'-' || c == b'.'
}

fn is_in_file_names(c: u8) -> bool
    ensures { result ≡ spec.is_in_file_names c }
{
    continues_identifier(c) || c == b'/'
}

fn are_in_file_names(text: &[u8]) -> bool
    ensures { result ≡ list_all spec.is_in_file_names text.now }
{
    text.iter().all(|c| is_in_file_names(*c))
}

// Whether the text is the name of a file.
fn is_file_name(text: &[u8]) -> bool
    ensures { result ≡ spec.is_file_name text.now }
{
    text.len() <= 255 && text.ends_with(b".yang") && are_in_file_names(text)
}

// The file's name in place of the module with this number.
fn name_text(alloc: Global, number: usize, name: &Str) -> Result<String, AllocError>
    ensures { IfOk result (λ text. string_bytes text ≡ spec.name_text number name.now) }
{
    let name = name.as_str();
    format!(in alloc; "module {number} file-name {name}")
}

// Why the text of the module with this number is refused.
pub(crate) fn of_text(alloc: Global, number: usize, text: &Str, fault: StmtFault) -> SchemaFault
    ensures told { spec.IsTold (spec.fault_text number text.now fault) result }
    ensures memory { fault ≡ StmtFault.NoMemory → result ≡ SchemaFault.NoMemory }
{
    match stmt_words(fault) {
        None => SchemaFault::NoMemory,
        Some(_) if is_file_name(text.items()) => told(name_text(alloc, number, text)),
        Some((word, at)) => told(format!(in alloc; "module {number} {word} {at}")),
    }
}

// A fault of modules.
pub(crate) fn of_modules(alloc: Global, fault: &BuildFault) -> SchemaFault
    ensures told { spec.IsTold (spec.build_text fault.now) result }
    ensures memory { fault.now ≡ BuildFault.NoMemory → result ≡ SchemaFault.NoMemory }
{
    match fault {
        BuildFault::NoMemory => SchemaFault::NoMemory,
        _ => told(build_text(alloc, fault)),
    }
}

// The same fault, of an upgrade with this number.
pub(crate) fn of_upgrade(alloc: Global, number: usize, fault: SchemaFault) -> SchemaFault
    ensures { spec.IsOfUpgrade number fault result }
{
    match fault {
        SchemaFault::Bad { text } => {
            let text = text.as_str();
            told(format!(in alloc; "upgrade {number} {text}"))
        }
        SchemaFault::NoMemory => SchemaFault::NoMemory,
    }
}

// The text of a fault of modules.
fn build_text(alloc: Global, fault: &BuildFault) -> Result<String, AllocError>
    ensures { IfOk result (λ text. string_bytes text ≡ spec.build_text fault.now) }
{
    match fault {
        BuildFault::UnknownStatement { module, at } => {
            placed(alloc, "unknown-statement", *module, *at)
        }
        BuildFault::LeftOut { module, at } => placed(alloc, "left-out", *module, *at),
        BuildFault::Missing {
            module,
            at,
            keyword,
        } => with_keyword(alloc, "missing", *module, *at, keyword),
        BuildFault::Twice {
            module,
            at,
            keyword,
        } => with_keyword(alloc, "twice", *module, *at, keyword),
        BuildFault::BadArgument { module, at } => placed(alloc, "bad-argument", *module, *at),
        BuildFault::NoModule { module, at } => placed(alloc, "no-module", *module, *at),
        BuildFault::ImportCycle { module, at } => placed(alloc, "import-cycle", *module, *at),
        BuildFault::UnknownName { module, at } => placed(alloc, "unknown-name", *module, *at),
        BuildFault::NameCycle { module, at } => placed(alloc, "name-cycle", *module, *at),
        BuildFault::DoubleNode { module, at } => placed(alloc, "double-node", *module, *at),
        BuildFault::BadRestriction { module, at } => {
            placed(alloc, "bad-restriction", *module, *at)
        }
        BuildFault::BadPattern { module, at } => placed(alloc, "bad-pattern", *module, *at),
        BuildFault::BadKey { module, at } => placed(alloc, "bad-key", *module, *at),
        BuildFault::ConfigUnderState { module, at } => {
            placed(alloc, "config-under-state", *module, *at)
        }
        BuildFault::BadTarget { module, at } => placed(alloc, "bad-target", *module, *at),
        BuildFault::OldIdentity { module, at } => placed(alloc, "old-identity", *module, *at),
        BuildFault::TooMany { what } => too_many(alloc, *what),
        BuildFault::NoMemory => Ok(String::new(alloc)),
    }
}

// A fault at a place of a module.
fn placed(alloc: Global, word: &str, module: u32, at: u32) -> Result<String, AllocError>
    ensures { IfOk result (λ text. string_bytes text ≡ spec.placed word.now «module» at) }
{
    format!(in alloc; "build {word} {module} {at}")
}

// A fault at a place of a module, with the keyword that it names.
fn with_keyword(
    alloc: Global,
    word: &str,
    module: u32,
    at: u32,
    keyword: &Str,
) -> Result<String, AllocError>
    ensures { IfOk result (λ text. string_bytes text ≡ spec.with_keyword word.now «module» at keyword.now) }
{
    let keyword = keyword.as_str();
    format!(in alloc; "build {word} {module} {at} {keyword}")
}

fn too_many(alloc: Global, what: What) -> Result<String, AllocError>
    ensures { IfOk result (λ text. string_bytes text ≡ spec.too_many what) }
{
    match what {
        What::Modules => String::from_str(alloc, "build too-many modules"),
        What::Nodes => String::from_str(alloc, "build too-many nodes"),
    }
}
