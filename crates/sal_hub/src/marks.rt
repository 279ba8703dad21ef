//! The marks that were set in the log.
ghost use Rattle.std.specs.Prelude.{◌≡◌, ◌<◌, ◌||◌, ◌&&◌, ℕ, false, not, OnErr, OnOk, length, nat_eq};
ghost use Rattle.sal_history.specs.declared.call.Call.TheVariants.{Mark};
ghost use Rattle.sal_hub.specs.Answers.{limit};
ghost use Rattle.sal_hub.specs.Journals.{jotted, mark_at};
ghost use Rattle.sal_hub.specs.Marks.{is_key};

use crate::journal::Journal;
use sal_history::Call;
use sal_types::NoMemory;
use std::alloc::Global;
use std::collections::BTreeMap;

/// Some marks.
#[derive(Drop)]
pub(crate) struct Marks {
    map: BTreeMap<u32, ()>,
}

impl Marks {
    /// No marks. It takes no memory.
    pub(crate) fn new(alloc: Global) -> Marks
        ensures { (m : ℕ) → is_key result.map m ≡ false }
    {
        Marks {
            map: BTreeMap::new(alloc),
        }
    }

    /// Whether the mark is one of them. It takes no memory.
    pub(crate) fn has(&self, mark: u32) -> bool
        ensures { result ≡ is_key self.now.map mark }
    {
        self.map.get(&mark).is_some()
    }

    /// Adds the mark.
    pub(crate) fn add(&mut self, mark: u32) -> Result<(), NoMemory>
        ensures ok { OnOk result ((m : ℕ) → is_key self.new.map m ≡ (nat_eq mark m || is_key self.old.map m)) }
        ensures err { OnErr result ((m : ℕ) → is_key self.new.map m ≡ is_key self.old.map m) }
    {
        self.map.insert(mark, ())?;
        Ok(())
    }

    /// Removes the mark. It takes no memory.
    pub(crate) fn take_out(&mut self, mark: u32)
        ensures { (m : ℕ) → is_key self.new.map m ≡ (not (nat_eq mark m) && is_key self.old.map m) }
    {
        self.map.remove(&mark);
    }
}

/// Sets the mark, and adds the entry. If memory runs out, nothing visible changes.
pub(crate) fn leave(
    journal: &mut Journal,
    marks: &mut Marks,
    client: u32,
    mark: u32,
) -> Result<(), NoMemory>
    requires { length journal.old.log < limit }
    ensures marked { OnOk result ((m : ℕ) → is_key marks.new.map m ≡ (nat_eq mark m || is_key marks.old.map m)) }
    ensures log { OnOk result (journal.new.log ≡ jotted journal.old.log client (Mark mark)) }
    ensures spent { OnOk result ((k : ℕ) → mark_at journal.new.marks k ≡ mark_at journal.old.marks k) }
    ensures same { OnErr result ((m : ℕ) → is_key marks.new.map m ≡ is_key marks.old.map m) }
    ensures journal { OnErr result (journal.new ≡ journal.old) }
{
    let is_new = !marks.has(mark);
    marks.add(mark)?;
    match journal.add(client, Call::Mark { mark }) {
        Ok(()) => Ok(()),
        Err(NoMemory) => {
            if is_new {
                marks.take_out(mark);
            }
            Err(NoMemory)
        }
    }
}
