//! Paths from texts.
ghost use Rattle.std.specs.Prelude.{◌≡◌, ◌<◌, [], ◌∷◌, ◌++◌, length, Err, IfOk, IsTrue, OnOk, OnErr};
ghost use Rattle.sal_schema.specs.Paths.{fits_path};
ghost use Rattle.sal_json.specs.Patterns.{patterns_of};
ghost use Rattle.sal_pathtext.specs.Read as spec;
ghost use Rattle.sal_pathtext.specs.Read.{Gives};

use crate::fault::PathTextFault;
use crate::here::Here;
use crate::reader::Reader;
use crate::words::first;
use sal_json::Patterns;
use sal_schema::Schema;
use sal_types::{MAX_STEPS, Path, PathFault, Step};
use std::alloc::Global;

// Appends a step, if the path has room for one.
fn add(path: &mut Path, step: Step) -> Result<(), PathTextFault>
    requires room { length path.old < 32 }
    ensures ok { OnOk result (path.new ≡ path.old ++ step ∷ []) }
    ensures err { OnErr result (result ≡ Err PathTextFault.NoMemory) }
{
    match path.push(step) {
        Ok(()) => Ok(()),
        Err(PathFault::NoMemory) => Err(PathTextFault::NoMemory),
        Err(PathFault::TooDeep) => unreachable!(),
    }
}

/// The steps of the text, which begins with a slash.
fn steps(reader: &Reader) -> Result<Path, PathTextFault>
    ensures { Gives (λ path. path) result (spec.steps reader.now.schema.now reader.now.text.now 32 spec.top reader.now.text.now) }
{
    let mut path = Path::root(reader.alloc);
    let mut here = Here {
        node: None,
        wants_entry: false,
        name_at: 0,
    };
    let mut rest = reader.text;
    'steps: while !rest.is_empty() {
        if path.steps().len() >= MAX_STEPS {
            return Err(reader.one_more(here, rest));
        }
        match reader.step(here, rest) {
            Ok((step, next, after)) => {
                add(&mut path, step)?;
                here = next;
                rest = after;
            }
            Err(fault) => return Err(fault),
        }
    }
    Ok(path)
}

#[tactic(auto, unfolding(crate::specs::Read::read_path))]
fn read(reader: &Reader) -> Result<Path, PathTextFault>
    ensures { Gives (λ path. path) result (spec.read_path reader.now.schema.now reader.now.text.now) }
{
    if first(reader.text) != b'/' {
        return Err(PathTextFault::BadText { at: 0 });
    }
    if reader.text.len() == 1 {
        return Ok(Path::root(reader.alloc));
    }
    steps(reader)
}

/// The path that a text denotes in a schema: `/` for the root, and otherwise a slash and a name for each node, with the
/// keys or the value of an entry in brackets after the name of its list or leaf-list.
///
/// The fault is the first from the left. It takes time linear in the text, and for each value that of `read_text`.
pub fn read_path(
    alloc: Global,
    schema: &Schema,
    patterns: &Patterns,
    text: &str,
) -> Result<Path, PathTextFault>
    requires { patterns.now ≡ patterns_of schema.now }
    ensures exact { Gives (λ path. path) result (spec.read_path schema.now text.now) }
    ensures fits { IfOk result (λ path. IsTrue (fits_path schema.now path)) }
{
    // (for the prover: the clause of `len` says that the table is one of a schema)
    let _nodes = schema.len();
    let path = read(&Reader::new(alloc, schema, patterns, text))?;
    Ok(path)
}
