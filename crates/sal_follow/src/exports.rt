//! The frames of the commits of a domain.
ghost use Rattle.std.specs.Prelude.{◌≡◌, ◌≤◌, ◌<◌, ◌+◌, ◌++◌, ◌∷◌, [], length, map, IfOk, OnOk};
ghost use Rattle.sal_delta.specs.Agreed.{AreAgreed};
ghost use Rattle.sal_graft.specs.Kept.{AreKept};
ghost use Rattle.sal_follow.specs.Framed.{AreExported, Exports, ExportsOn, ExportsSince, IsSnapshot, trees_of, trees_of_pair};
ghost use Rattle.sal_follow.specs.Front.{framed};
ghost use Rattle.sal_follow.specs.Head.{max_text};
ghost use Rattle.sal_follow.specs.Exporting.{Puts, frame_at as frame_of_number, frame_on};

use crate::commits::{frame_at, frame_kept, snapshot_frame};
use crate::fault::ExportFault;
use crate::frame::Frame;
use crate::head::{MAX_TEXT, push_head};
use crate::next::NextFrame;
use crate::writer::Writer;
use sal_schema::Schema;
use sal_tree::{Commit, Pair};
use sal_types::{Bytes, NoMemory, Seq};
use std::alloc::Global;

// Appends the frame of a text.
fn push_frame(bytes: &mut Vec<u8>, text: &[u8]) -> Result<(), NoMemory>
    requires { length text.now ≤ max_text }
    ensures { OnOk result (bytes.new.items ≡ bytes.old.items ++ framed text.now) }
{
    push_head(bytes, text.len())?;
    bytes.extend_from_slice(text)?;
    bytes.push(10)?;
    Ok(())
}

// Appends a frame.
fn push_text(bytes: &mut Vec<u8>, writer: &Writer, frame: &Frame) -> Result<(), ExportFault>
    ensures { Puts writer.now.schema.now frame.now bytes.old.items bytes.new.items result }
{
    let text = writer.text(frame)?;
    if text.len() > MAX_TEXT {
        return Err(ExportFault::TooLong {
            commit: frame.commit,
        });
    }
    push_frame(bytes, &text)?;
    Ok(())
}

// Appends the frame of the commit with this number.
fn push_commit(
    bytes: &mut Vec<u8>,
    writer: &Writer,
    commits: &[Commit],
    number: u64,
) -> Result<(), ExportFault>
    requires agreed { AreAgreed commits.now }
    requires inside { number < length commits.now }
    ensures { Puts writer.now.schema.now (frame_of_number (map trees_of commits.now) number) bytes.old.items bytes.new.items result }
{
    let frame = frame_at(writer.alloc, commits, number)?;
    push_text(bytes, writer, &frame)
}

// Appends the next frame, for commits that a domain keeps.
fn push_kept(
    bytes: &mut Vec<u8>,
    writer: &Writer,
    commits: &[Commit],
    next: NextFrame,
) -> Result<(), ExportFault>
    requires agreed { AreAgreed commits.now }
    requires kept { AreKept commits.now }
    requires inside { next.commit < length commits.now }
    ensures { Puts writer.now.schema.now (frame_on (map trees_of commits.now) next.commit next.number) bytes.old.items bytes.new.items result }
{
    let mut frame = frame_kept(writer.alloc, commits, next.commit)?;
    frame.commit = next.number;
    push_text(bytes, writer, &frame)
}

// The number of the frame after one. `NoMemory` if there is none.
fn following(number: u64) -> Result<u64, NoMemory>
    ensures { IfOk result (λ next. next ≡ number + 1) }
{
    match number.checked_add(1) {
        Some(next) => Ok(next),
        None => Err(NoMemory),
    }
}

/// The frames of a domain's commits, from its opening to the newest.
///
/// If two neighbouring commits have one stamp at a path, the nodes there must be equal, as they are in the commits of a domain.
pub fn export(alloc: Global, schema: &Schema, commits: &[Commit]) -> Result<Bytes, ExportFault>
    requires { AreAgreed commits.now }
    ensures { Exports schema.now (map trees_of commits.now) result }
{
    let writer = Writer { alloc, schema };
    let mut bytes = Vec::new(alloc);
    for number in 0..commits.len() as u64 {
        push_commit(&mut bytes, &writer, commits, number)?;
    }
    Ok(Seq::from_items(bytes))
}

/// The same for the commits that a domain keeps, at the cost of the changes of each.
///
/// The trees of each commit result from its operations, so the operations say where these differ.
pub fn export_kept(alloc: Global, schema: &Schema, commits: &[Commit]) -> Result<Bytes, ExportFault>
    requires agreed { AreAgreed commits.now }
    requires kept { AreKept commits.now }
    ensures { Exports schema.now (map trees_of commits.now) result }
{
    export_since(alloc, schema, commits, 0)
}

/// The frames from the commit of this number on, with the numbers of their commits: the rest of a stream that has the frames before it.
pub fn export_since(
    alloc: Global,
    schema: &Schema,
    commits: &[Commit],
    from: u64,
) -> Result<Bytes, ExportFault>
    requires agreed { AreAgreed commits.now }
    requires kept { AreKept commits.now }
    ensures { ExportsSince schema.now (map trees_of commits.now) from result }
{
    let next = NextFrame {
        commit: from,
        number: from,
    };
    export_on(alloc, schema, commits, next)
}

/// The frames from a commit on, numbered from the number of the next frame on: the continuation of a stream whose earlier frames were those of other
/// commits, as over epochs. Its frames before must lead to the trees before that commit (`laws::streams_go_on_after`).
pub fn export_on(
    alloc: Global,
    schema: &Schema,
    commits: &[Commit],
    next: NextFrame,
) -> Result<Bytes, ExportFault>
    requires agreed { AreAgreed commits.now }
    requires kept { AreKept commits.now }
    ensures { ExportsOn schema.now (map trees_of commits.now) next.commit next.number result }
{
    let writer = Writer { alloc, schema };
    let mut bytes = Vec::new(alloc);
    let mut number = next.number;
    for commit in next.commit..commits.len() as u64 {
        push_kept(&mut bytes, &writer, commits, NextFrame { commit, number })?;
        number = following(number)?;
    }
    Ok(Seq::from_items(bytes))
}

/// The bytes of one frame.
pub(crate) fn frame_alone(
    alloc: Global,
    schema: &Schema,
    frame: &Frame,
) -> Result<Bytes, ExportFault>
    ensures { AreExported schema.now (frame.now ∷ []) result }
{
    let writer = Writer { alloc, schema };
    let mut bytes = Vec::new(alloc);
    push_text(&mut bytes, &writer, frame)?;
    Ok(Seq::from_items(bytes))
}

/// The frame with all rows of these trees, and this number: a stream may begin with it (`Follower::before`), and goes on with the frames of the
/// commits after (`export_on`).
pub fn snapshot_of(
    alloc: Global,
    schema: &Schema,
    trees: &Pair,
    number: u64,
) -> Result<Bytes, ExportFault>
    ensures { IsSnapshot schema.now number (trees_of_pair trees.now) result }
{
    let frame = snapshot_frame(alloc, number, trees)?;
    frame_alone(alloc, schema, &frame)
}
