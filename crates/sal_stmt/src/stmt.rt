//! Statements.
ghost use Rattle.std.specs.Prelude.{◌≡◌, IfOk};

use sal_types::{Duplicate, NoMemory, Seq, Str};
use std::alloc::Global;

/// A statement with those in its block. A statement that ends with `;` has none.
#[derive(Drop)]
pub struct Stmt {
    /// An identifier, or two of them joined by `:`.
    pub keyword: Str,
    /// The value of the argument: quotes, escapes and indentation are resolved.
    pub arg: Option<Str>,
    /// The byte offset of the keyword in the text.
    pub at: u32,
    /// The statements of its block, in the order of the text.
    pub subs: Seq<Stmt>,
}

impl Stmt {
    /// A second statement, equal to this one.
    pub fn copy(&self, alloc: Global) -> Result<Stmt, NoMemory>
        ensures { IfOk result (λ it. it ≡ self.now) }
    {
        let mut subs = Vec::with_capacity(alloc, self.subs.items().len())?;
        for sub in self.subs.items() {
            subs.push(sub.copy(alloc)?)?;
        }
        let keyword = self.keyword.copy()?;
        let arg = copy_arg(&self.arg)?;
        Ok(Stmt {
            keyword,
            arg,
            at: self.at,
            subs: Seq::from_items(subs),
        })
    }
}

fn copy_arg(arg: &Option<Str>) -> Result<Option<Str>, NoMemory>
    ensures { IfOk result (λ it. it ≡ arg.now) }
{
    match arg {
        None => Ok(None),
        Some(text) => Ok(Some(text.copy()?)),
    }
}
