//! The scene of a log with its replies.
ghost use Rattle.std.specs.Prelude.{◌≡◌, ◌<◌, ◌^◌, ◌++◌, Some, false, IfOk, OnOk, map};
ghost use Rattle.std.specs.List.{fold};
ghost use Rattle.std.specs.Option.{option_to_list};
ghost use Rattle.sal_draw.specs.Acts.{made_in, track_of};
ghost use Rattle.sal_draw.specs.Looks.{call_style};
ghost use Rattle.sal_retell.specs.Light.{has};
ghost use Rattle.sal_draw_log.specs.Drawn as spec;

use crate::words::{Texts, texts_of};
use sal_draw::{Said, Track, call_style};
use sal_history::{Call, Entry, Reply};
use sal_retell::Footing;
use sal_rows::Outcome;
use sal_shapes::{Act, Made, Row, Scene, Style};
use sal_types::{NoMemory, Seq, Str, append};
use std::alloc::Global;

/// The greatest number of a lane.
const MAX_LANE: usize = 4294967295;

/// The seats that have lanes, and the commits by receipt, from 0 on.
#[derive(Clone, Copy)]
pub(crate) struct Ground<'a> {
    pub seats: &'a [u32],
    pub made: &'a [Option<Made>],
}

/// The picture so far: the state after the entries above, their number, and the rows.
#[derive(Drop)]
pub struct Weave {
    pub track: Track,
    pub place: u64,
    pub rows: Vec<Row>,
}

fn made_by(domain: u32, outcome: &Outcome) -> Option<Made>
    ensures { result ≡ spec.made_by domain outcome.now }
{
    match outcome {
        Outcome::Done { commit } => Some(Made {
            domain,
            number: *commit,
        }),
        _ => None,
    }
}

/// The commits of the submissions with these outcomes, from receipt 1 on.
pub(crate) fn made_on(
    alloc: Global,
    sent: &[Footing],
    outcomes: &[Outcome],
) -> Result<Vec<Option<Made>>, NoMemory>
    ensures { IfOk result (λ made. made.items ≡ spec.made_on sent.now outcomes.now) }
{
    let mut made = Vec::new(alloc);
    for i in 0..usize::min(sent.len(), outcomes.len()) {
        append(&mut made, made_by(sent[i].domain, &outcomes[i]))?;
    }
    Ok(made)
}

// The lane of a seat. `NoMemory` if there are more lanes than numbers.
fn lane_of(seats: &[u32], client: u32) -> Result<u32, NoMemory>
    ensures { IfOk result (λ lane. lane ≡ spec.lane_of seats.now client) }
{
    let lane = index_of(seats, client);
    if lane > MAX_LANE {
        return Err(NoMemory);
    }
    Ok(lane as u32)
}

fn index_of(seats: &[u32], client: u32) -> usize
    ensures { result ≡ spec.lane_of seats.now client }
{
    for i in 0..seats.len() {
        if seats[i] == client {
            return i;
        }
    }
    seats.len()
}

// The place of a row, and how it looks.
#[derive(Clone, Copy)]
struct At {
    lane: u32,
    place: u64,
    style: Style,
}

fn row_with(at: At, acts: Vec<Act>, texts: Texts) -> Row
    ensures { result ≡ record { lane = at.lane; place = Some at.place; style = at.style; label = texts.label; title = texts.title; acts = acts.items; hidden = false } }
{
    let Texts { label, title } = texts;
    Row {
        lane: at.lane,
        place: Some(at.place),
        style: at.style,
        label,
        title,
        acts: Seq::from_items(acts),
        hidden: false,
    }
}

impl Weave {
    fn new(alloc: Global) -> Weave
        ensures { spec.weave_of result ≡ spec.new_weave }
    {
        Weave {
            track: Track::new(alloc),
            place: 0,
            rows: Vec::new(alloc),
        }
    }

    // The row of the entry.
    fn row(
        &self,
        alloc: Global,
        ground: Ground,
        entry: &Entry,
        reply: &Reply,
    ) -> Result<Row, NoMemory>
        ensures { IfOk result (λ row. row ≡ spec.row_of ground.entry.seats.now (made_in ground.entry.made.now) (track_of self.now.track) self.now.place (record { entry = entry.now; reply = reply.now })) }
    {
        let said = Said {
            call: &entry.call,
            reply,
        };
        let at = At {
            lane: lane_of(ground.seats, entry.client)?,
            place: self.place,
            style: call_style(reply),
        };
        let acts = self.track.acts(alloc, ground.made, self.place, said)?;
        let texts = texts_of(alloc, &entry.call, reply)?;
        Ok(row_with(at, acts, texts))
    }

    // Adds one entry.
    fn weave(&mut self, ground: Ground, entry: &Entry, reply: &Reply) -> Result<(), NoMemory>
        requires { self.old.place < 2 ^ 63 }
        ensures { OnOk result (spec.weave_of self.new ≡ spec.weave ground.entry.seats.now (made_in ground.entry.made.now) (spec.weave_of self.old) (record { entry = entry.now; reply = reply.now })) }
    {
        let alloc = *self.rows.allocator();
        let row = self.row(alloc, ground, entry, reply)?;
        append(&mut self.rows, row)?;
        self.place += 1;
        self.track.note(Said {
            call: &entry.call,
            reply,
        })
    }

    fn entries(&mut self, ground: Ground, log: &[Entry], replies: &[Reply]) -> Result<(), NoMemory>
        requires { self.old.place ≡ 0 }
        ensures { OnOk result (spec.weave_of self.new ≡ fold (spec.weave ground.entry.seats.now (made_in ground.entry.made.now)) (spec.weave_of self.old) (spec.saids_of log.now replies.now)) }
    {
        for i in 0..usize::min(log.len(), replies.len()) {
            self.weave(ground, &log[i], &replies[i])?;
        }
        Ok(())
    }
}

fn has(seats: &[u32], seat: u32) -> bool
    ensures { result ≡ has seats.now seat }
{
    seats.iter().any(|it| *it == seat)
}

fn add_seat(seats: &mut Vec<u32>, entry: &Entry) -> Result<(), NoMemory>
    ensures { OnOk result (seats.new.items ≡ spec.add_seat seats.old.items entry.now) }
{
    if has(seats, entry.client) {
        return Ok(());
    }
    append(seats, entry.client)
}

// The seats that made a call.
fn seats_of(alloc: Global, log: &[Entry]) -> Result<Vec<u32>, NoMemory>
    ensures { IfOk result (λ seats. seats.items ≡ spec.seats_of log.now) }
{
    let mut seats = Vec::new(alloc);
    for entry in log {
        add_seat(&mut seats, entry)?;
    }
    Ok(seats)
}

fn seat_name(alloc: Global, seat: u32) -> Result<Str, NoMemory>
    ensures { IfOk result (λ name. name ≡ spec.seat_name seat) }
{
    let name = format!(in alloc; "seat {seat}")?;
    Ok(Str::from_string(name))
}

// The headings of the lanes.
fn names_of(alloc: Global, seats: &[u32]) -> Result<Vec<Str>, NoMemory>
    ensures { IfOk result (λ names. names.items ≡ map spec.seat_name seats.now) }
{
    let mut names = Vec::new(alloc);
    for seat in seats {
        append(&mut names, seat_name(alloc, *seat)?)?;
    }
    Ok(names)
}

fn add_column(columns: &mut Vec<u32>, call: &Call, reply: &Reply) -> Result<(), NoMemory>
    ensures { OnOk result (columns.new.items ≡ columns.old.items ++ option_to_list (spec.mounted_by call.now reply.now)) }
{
    match (call, reply) {
        (Call::Mount { device, .. }, Reply::Accepted) => append(columns, *device),
        _ => Ok(()),
    }
}

// The columns of the domains.
fn columns_of(alloc: Global, log: &[Entry], replies: &[Reply]) -> Result<Vec<u32>, NoMemory>
    ensures { IfOk result (λ columns. columns.items ≡ spec.columns_of (spec.saids_of log.now replies.now)) }
{
    let mut columns = Vec::new(alloc);
    append(&mut columns, 0)?;
    for i in 0..usize::min(log.len(), replies.len()) {
        add_column(&mut columns, &log[i].call, &replies[i])?;
    }
    Ok(columns)
}

fn rows_of(
    alloc: Global,
    ground: Ground,
    log: &[Entry],
    replies: &[Reply],
) -> Result<Vec<Row>, NoMemory>
    ensures { IfOk result (λ rows. rows.items ≡ (fold (spec.weave ground.entry.seats.now (made_in ground.entry.made.now)) spec.new_weave (spec.saids_of log.now replies.now)).rows) }
{
    let mut weave = Weave::new(alloc);
    weave.entries(ground, log, replies)?;
    let Weave { rows, .. } = weave;
    Ok(rows)
}

/// The scene of these entries with these replies; `made` has the commits by receipt.
pub(crate) fn scene_of(
    alloc: Global,
    made: &[Option<Made>],
    log: &[Entry],
    replies: &[Reply],
) -> Result<Scene, NoMemory>
    ensures { IfOk result (λ scene. scene ≡ spec.scene_in made.now log.now (spec.saids_of log.now replies.now)) }
{
    let seats = seats_of(alloc, log)?;
    let ground = Ground {
        seats: &seats,
        made,
    };
    let rows = rows_of(alloc, ground, log, replies)?;
    let lanes = names_of(alloc, &seats)?;
    let columns = columns_of(alloc, log, replies)?;
    Ok(Scene {
        lanes: Seq::from_items(lanes),
        domains: Seq::from_items(columns),
        rows: Seq::from_items(rows),
    })
}
