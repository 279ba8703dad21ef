//! The rows of a played script: its entries in the order of the log, and above each the local steps that its client did before.
ghost use Rattle.std.specs.Prelude.{◌≡◌, ◌<◌, ◌≤◌, ◌+◌, ◌^◌, ◌++◌, false, None, IfOk, OnOk, Some, drop, length, map, take};
ghost use Rattle.std.specs.List.{fold, range_with_len};
ghost use Rattle.sal_script.specs.Moves.{clients_of, moves_of};
ghost use Rattle.sal_draw.specs.Acts.{made_in};
ghost use Rattle.sal_draw_script.specs.Rows as spec;

use crate::texts::{Texts, style_of, texts_of};
use sal_draw::{Said, Track};
use sal_history::{Call, Entry};
use sal_schema::Schema;
use sal_script::{Program, ScriptStep, StepReply};
use sal_shapes::{Act, Made, Row, Scene, Style};
use sal_types::{NoMemory, Seq, Str, append};
use std::alloc::Global;
use std::sync::Arc;

/// The greatest number of a lane.
const MAX_LANE: usize = 4294967295;

/// The range of entries to draw: from the first index of the log to the last.
#[derive(Clone, Copy, Debug, PartialEq, Eq)]
pub struct Range {
    pub from: u64,
    pub to: u64,
}

/// A played script: the steps of its clients, their replies, and the log.
#[derive(Clone, Copy)]
pub struct Play<'a> {
    pub clients: &'a [Program],
    pub replies: &'a [Seq<StepReply>],
    pub log: &'a [Entry],
}

/// The schemas of the domains, each of its last version, and the commits by receipt, from 0 on.
#[derive(Clone, Copy)]
pub struct Ground<'a> {
    pub schemas: &'a [Arc<Schema>],
    pub made: &'a [Option<Made>],
}

/// A step with the reply to it.
#[derive(Clone, Copy)]
pub struct Bead<'a> {
    pub step: &'a ScriptStep,
    pub reply: &'a StepReply,
}

/// The state of the drawing: the remaining steps of each client, the state after the entries above, their number, and the rows.
#[derive(Drop)]
pub struct Weave<'x, 'a> {
    pub left: Vec<&'x [Bead<'a>]>,
    pub track: Track,
    pub place: u64,
    pub rows: Vec<Row>,
}

// The position of a row: its lane, its index if it is an entry's, and whether it is hidden.
#[derive(Clone, Copy)]
struct At {
    lane: u32,
    place: Option<u64>,
    hidden: bool,
}

// ---- steps with their replies

fn is_local(reply: &StepReply) -> bool
    ensures { result ≡ spec.is_local reply.now }
{
    match reply {
        StepReply::Called { .. } => false,
        _ => true,
    }
}

fn beads_of<'x>(
    alloc: Global,
    steps: &'x [ScriptStep],
    replies: &'x [StepReply],
) -> Result<Vec<Bead<'x>>, NoMemory>
    ensures { IfOk result (λ beads. map spec.bead_of beads.items ≡ spec.beads (moves_of steps.now) replies.now) }
{
    let mut beads = Vec::new(alloc);
    for i in 0..usize::min(steps.len(), replies.len()) {
        let bead = Bead {
            step: &steps[i],
            reply: &replies[i],
        };
        append(&mut beads, bead)?;
    }
    Ok(beads)
}

fn all_beads<'x>(
    alloc: Global,
    clients: &'x [Program],
    replies: &'x [Seq<StepReply>],
) -> Result<Vec<Vec<Bead<'x>>>, NoMemory>
    ensures { IfOk result (λ all. map spec.beads_of all.items ≡ spec.all_beads (clients_of clients.now) replies.now) }
{
    let mut all = Vec::new(alloc);
    for i in 0..usize::min(clients.len(), replies.len()) {
        append(
            &mut all,
            beads_of(alloc, clients[i].items(), replies[i].items())?,
        )?;
    }
    Ok(all)
}

// The remaining steps of the clients before the first entry.
fn whole_of<'x, 'a>(
    alloc: Global,
    beads: &'x [Vec<Bead<'a>>],
) -> Result<Vec<&'x [Bead<'a>]>, NoMemory>
    ensures { IfOk result (λ left. map spec.beads_in left.items ≡ map spec.beads_of beads.now) }
{
    let mut left = Vec::new(alloc);
    for list in beads {
        append(&mut left, list.as_slice())?;
    }
    Ok(left)
}

// The number of local steps before the next shared call.
fn locals(beads: &[Bead]) -> usize
    ensures count { result ≡ spec.locals (map spec.bead_of beads.now) }
    ensures within { result ≤ length beads.now }
{
    for i in 0..beads.len() {
        if !is_local(beads[i].reply) {
            return i;
        }
    }
    beads.len()
}

// ---- rows

fn row_with(at: At, style: Style, acts: Vec<Act>, texts: Texts) -> Row
    ensures { result ≡ record { lane = at.lane; place = at.place; style = style; label = texts.label; title = texts.title; acts = acts.items; hidden = at.hidden } }
{
    let Texts { label, title } = texts;
    Row {
        lane: at.lane,
        place: at.place,
        style,
        label,
        title,
        acts: Seq::from_items(acts),
        hidden: at.hidden,
    }
}

fn row_of(schemas: &[Arc<Schema>], at: At, acts: Vec<Act>, bead: Bead) -> Result<Row, NoMemory>
    ensures { IfOk result (λ row. row ≡ spec.row_of (spec.tables_in schemas.now) at.lane at.place acts.items at.hidden (spec.bead_of bead.entry)) }
{
    let alloc = *acts.allocator();
    let texts = texts_of(alloc, schemas, bead.step, bead.reply)?;
    Ok(row_with(at, style_of(bead.reply), acts, texts))
}

// These local steps.
fn add_locals(
    schemas: &[Arc<Schema>],
    rows: &mut Vec<Row>,
    beads: &[Bead],
    at: At,
) -> Result<(), NoMemory>
    requires { at.place ≡ None }
    ensures { OnOk result (rows.new.items ≡ rows.old.items ++ map (spec.local_row (spec.tables_in schemas.now) at.lane at.hidden) (map spec.bead_of beads.now)) }
{
    for bead in beads {
        let none = Vec::new(*rows.allocator());
        append(rows, row_of(schemas, at, none, *bead)?)?;
    }
    Ok(())
}

// ---- entries

impl<'x, 'a> Weave<'x, 'a> {
    // No entry.
    fn new(alloc: Global, left: Vec<&'x [Bead<'a>]>) -> Weave<'x, 'a>
        ensures { spec.weave_of result ≡ spec.new_weave (map spec.beads_in left.entry.items) }
    {
        Weave {
            left,
            track: Track::new(alloc),
            place: 0,
            rows: Vec::new(alloc),
        }
    }

    // The row of a shared call, with its reply.
    fn called(&mut self, ground: Ground, at: At, bead: Bead, said: Said) -> Result<(), NoMemory>
        ensures { OnOk result (spec.weave_of self.new ≡ spec.called (spec.tables_in ground.entry.schemas.now) (made_in ground.entry.made.now) at.lane at.place at.hidden said.entry.call.now (spec.bead_of bead.entry) said.entry.reply.now (spec.weave_of self.old)) }
    {
        let alloc = *self.rows.allocator();
        let acts = self.track.acts(alloc, ground.made, self.place, said)?;
        append(&mut self.rows, row_of(ground.schemas, at, acts, bead)?)?;
        self.track.note(said)
    }

    // The shared call of the client in this lane.
    fn shared(&mut self, ground: Ground, at: At, call: &Call, bead: Bead) -> Result<(), NoMemory>
        requires { at.place ≡ Some self.old.place }
        ensures { OnOk result (spec.weave_of self.new ≡ spec.shared (spec.tables_in ground.entry.schemas.now) (made_in ground.entry.made.now) at.lane at.hidden call.now (Some (spec.bead_of bead.entry)) (spec.weave_of self.old)) }
    {
        match bead.reply {
            StepReply::Called { reply } => self.called(ground, at, bead, Said { call, reply }),
            _ => Ok(()),
        }
    }

    // Adds the next local steps.
    fn locals(
        &mut self,
        schemas: &[Arc<Schema>],
        at: At,
        beads: &'x [Bead<'a>],
    ) -> Result<(), NoMemory>
        requires place { at.place ≡ None }
        requires lane { at.lane < length self.old.left.items }
        ensures { OnOk result (spec.weave_of self.new ≡ spec.with_locals (spec.tables_in schemas.now) at.lane at.hidden (map spec.bead_of beads.now) (spec.weave_of self.old)) }
    {
        let count = locals(beads);
        add_locals(schemas, &mut self.rows, &beads[..count], at)?;
        self.left[at.lane as usize] = behind(beads, count);
        Ok(())
    }

    // Adds the client's local steps, and its shared call.
    fn turn(
        &mut self,
        ground: Ground,
        mut at: At,
        call: &Call,
        beads: &'x [Bead<'a>],
    ) -> Result<(), NoMemory>
        requires place { at.place ≡ None }
        requires lane { at.lane < length self.old.left.items }
        ensures { OnOk result (spec.weave_of self.new ≡ spec.turn (spec.tables_in ground.entry.schemas.now) (made_in ground.entry.made.now) at.lane at.hidden call.now (Some (map spec.bead_of beads.now)) (spec.weave_of self.old)) }
    {
        self.locals(ground.schemas, at, beads)?;
        at.place = Some(self.place);
        match beads.get(locals(beads)) {
            Some(bead) => self.shared(ground, at, call, *bead),
            None => Ok(()),
        }
    }

    // Adds one entry.
    fn weave(&mut self, ground: Ground, from: u64, entry: &Entry) -> Result<(), NoMemory>
        requires { self.old.place < 2 ^ 63 }
        ensures { OnOk result (spec.weave_of self.new ≡ spec.weave (spec.tables_in ground.entry.schemas.now) (made_in ground.entry.made.now) from (spec.weave_of self.old) entry.now) }
    {
        let at = At {
            lane: entry.client,
            place: None,
            hidden: self.place < from,
        };
        if let Some(beads) = self.left.get(entry.client as usize).copied() {
            self.turn(ground, at, &entry.call, beads)?;
        }
        self.place += 1;
        Ok(())
    }

    fn entries(&mut self, ground: Ground, from: u64, log: &[Entry]) -> Result<(), NoMemory>
        requires { self.old.place ≡ 0 }
        ensures { OnOk result (spec.weave_of self.new ≡ fold (spec.weave (spec.tables_in ground.entry.schemas.now) (made_in ground.entry.made.now) from) (spec.weave_of self.old) log.now) }
    {
        for entry in log {
            self.weave(ground, from, entry)?;
        }
        Ok(())
    }
}

// The number of a lane. `NoMemory` if there are more lanes than numbers.
fn lane_of(lane: usize) -> Result<u32, NoMemory>
    ensures { IfOk result (λ number. number ≡ lane) }
{
    if lane > MAX_LANE {
        return Err(NoMemory);
    }
    Ok(lane as u32)
}

// Adds the remaining steps of the clients.
fn add_rest(schemas: &[Arc<Schema>], rows: &mut Vec<Row>, left: &[&[Bead]]) -> Result<(), NoMemory>
    ensures { OnOk result (rows.new.items ≡ rows.old.items ++ spec.rest_rows (spec.tables_in schemas.now) 0 (map spec.beads_in left.now)) }
{
    for (lane, beads) in left.iter().enumerate() {
        let number = lane_of(lane)?;
        let at = At {
            lane: number,
            place: None,
            hidden: false,
        };
        add_locals(schemas, rows, beads, at)?;
    }
    Ok(())
}

// The steps after the first `count` and one more.
fn behind<'x, 'a>(beads: &'x [Bead<'a>], count: usize) -> &'x [Bead<'a>]
    requires { count ≤ length beads.now }
    ensures { result.now ≡ drop (count + 1) beads.now }
{
    &beads[usize::min(count + 1, beads.len())..]
}

// The entries of the log up to the end of the range.
fn front_of(log: &[Entry], to: u64) -> &[Entry]
    ensures { result.now ≡ take (to + 1) log.now }
{
    if log.len() as u64 <= to {
        return log;
    }
    &log[..to as usize + 1]
}

/// The rows of a played script. It fails only if memory runs out.
fn rows_of(alloc: Global, ground: Ground, range: Range, play: Play) -> Result<Vec<Row>, NoMemory>
    ensures { IfOk result (λ rows. rows.items ≡ spec.rows_of (spec.tables_in ground.entry.schemas.now) (made_in ground.entry.made.now) range (spec.all_beads (clients_of play.entry.clients.now) play.entry.replies.now) play.entry.log.now) }
{
    let beads = all_beads(alloc, play.clients, play.replies)?;
    let left = whole_of(alloc, &beads)?;
    let mut weave = Weave::new(alloc, left);
    let front = front_of(play.log, range.to);
    weave.entries(ground, range.from, front)?;
    let Weave { left, mut rows, .. } = weave;
    if front.len() == play.log.len() {
        add_rest(ground.schemas, &mut rows, &left)?;
    }
    Ok(rows)
}

// The heading of a client's lane.
fn client_name(alloc: Global, lane: usize) -> Result<Str, NoMemory>
    ensures { IfOk result (λ name. name ≡ spec.client_name lane) }
{
    let name = format!(in alloc; "client {lane}")?;
    Ok(Str::from_string(name))
}

// The headings of this many clients.
fn names_of(alloc: Global, lanes: usize) -> Result<Vec<Str>, NoMemory>
    ensures { IfOk result (λ names. names.items ≡ map spec.client_name (range_with_len 0 lanes)) }
{
    let mut names = Vec::new(alloc);
    for lane in 0..lanes {
        append(&mut names, client_name(alloc, lane)?)?;
    }
    Ok(names)
}

/// The scene of a played script, for these domains. It fails only if memory runs out.
pub fn scene_of(
    alloc: Global,
    ground: Ground,
    domains: Seq<u32>,
    range: Range,
    play: Play,
) -> Result<Scene, NoMemory>
    ensures { IfOk result (λ scene. scene ≡ spec.scene_of (spec.tables_in ground.entry.schemas.now) (made_in ground.entry.made.now) range «domains» (spec.all_beads (clients_of play.entry.clients.now) play.entry.replies.now) play.entry.log.now) }
{
    let lanes = usize::min(play.clients.len(), play.replies.len());
    let names = names_of(alloc, lanes)?;
    let rows = rows_of(alloc, ground, range, play)?;
    Ok(Scene {
        lanes: Seq::from_items(names),
        domains,
        rows: Seq::from_items(rows),
    })
}
