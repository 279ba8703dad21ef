//! A read in a newest tree, without a step.
ghost use Rattle.std.specs.Prelude.{◌≡◌, true, IfOk, MatchResult};
ghost use Rattle.sal_tree.specs.Rows.{rows_of};
ghost use Rattle.sal_pathtext.specs.Read.{read_path};
ghost use Rattle.sal_prepare.specs.Scripted.{tables_in};
ghost use Rattle.sal_script.specs.Report.{reply_text};
ghost use Rattle.sal_script.specs.Tables.{has_domain, last_in};
ghost use Rattle.sal_script.specs.declared.reply.StepReply.TheVariants.{Read, Refused};
ghost use Rattle.sal_script.specs.declared.reply.StepRefusal.TheVariants.{BadPath};
ghost use Rattle.sal_cluster.specs.Looks.{Looks, reply_of};
ghost use Rattle.sal_cluster.specs.declared.look.LookFault.TheVariants.{NoMemory as NoText};

use sal_client::{Reader, Readers};
use sal_pathtext::PathTextFault;
use sal_report::reply_text;
use sal_rows::Rows;
use sal_schema::Schema;
use sal_script::{StepRefusal, StepReply};
use sal_tree::Root;
use sal_types::{NoMemory, Path, Store, Str};
use std::alloc::Global;
use std::sync::Arc;

/// Why a read has no text.
#[derive(Clone, Copy, Debug, PartialEq, Eq)]
pub enum LookFault {
    /// The bytes of the path are no UTF-8.
    BadText,
    NoMemory,
}

/// A newest tree: the store of a domain, 0 is the controller's own.
#[derive(Clone, Copy, Debug, PartialEq, Eq)]
pub struct Place {
    pub domain: u32,
    pub store: Store,
}

/// The text of a read of the path in a tree of a domain.
pub(crate) fn look_in_tree(
    alloc: Global,
    domain: u32,
    reader: &Reader,
    schemas: &[Arc<Schema>],
    tree: &Root,
    path: &[u8],
) -> Result<Str, LookFault>
    ensures { Looks (tables_in schemas.now) reader.now domain (rows_of tree.now) path.now result }
{
    let Ok(text) = str::from_utf8(path) else {
        return Err(LookFault::BadText);
    };
    match tree_reply(alloc, domain, reader, tree, text) {
        Ok(reply) => told(alloc, schemas, &reply),
        Err(NoMemory) => Err(LookFault::NoMemory),
    }
}

/// The reader of the domain by the last version of its schema.
pub(crate) fn reader_of(readers: &Readers, domain: u32) -> &Reader
    requires { has_domain readers.now domain ≡ true }
    ensures { result.now ≡ last_in readers.now domain }
{
    let Some(reader) = readers.last_of(domain) else {
        unreachable!()
    };
    reader
}

// The text of a reply.
fn told(alloc: Global, schemas: &[Arc<Schema>], reply: &StepReply) -> Result<Str, LookFault>
    ensures { MatchResult result (λ text. text ≡ reply_text (tables_in schemas.now) reply.now) (λ fault. fault ≡ NoText) }
{
    match reply_text(alloc, schemas, reply) {
        Ok(text) => Ok(text),
        Err(NoMemory) => Err(LookFault::NoMemory),
    }
}

fn tree_reply(
    alloc: Global,
    domain: u32,
    reader: &Reader,
    tree: &Root,
    text: &str,
) -> Result<StepReply, NoMemory>
    ensures { IfOk result (λ reply. reply ≡ reply_of domain (rows_of tree.now) (read_path reader.now text.now)) }
{
    match reader.path(alloc, text) {
        Ok(path) => {
            let rows = tree.rows(alloc, &path)?;
            Ok(read(domain, path, rows))
        }
        Err(PathTextFault::NoMemory) => Err(NoMemory),
        Err(fault) => Ok(refused(fault)),
    }
}

fn read(domain: u32, path: Path, rows: Rows) -> StepReply
    ensures { result ≡ Read domain path rows }
{
    StepReply::Read { domain, path, rows }
}

fn refused(fault: PathTextFault) -> StepReply
    ensures { result ≡ Refused (BadPath fault) }
{
    StepReply::Refused {
        refusal: StepRefusal::BadPath { fault },
    }
}
