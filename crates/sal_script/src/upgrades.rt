//! Domain 0 of a script: its modules, the further modules of each upgrade of its schema, and its openings.
ghost use Rattle.std.specs.Prelude.{◌≡◌, codes, map, option_and_then, option_map, IfOk, IsTrue};
ghost use Rattle.serde_json.specs.View.{view, members_view};
ghost use Rattle.sal_script.specs.Reading.{Reads, own};
ghost use Rattle.sal_script.specs.Limits.{all_texts, are_short};
ghost use Rattle.sal_script.specs.Script as spec;

use crate::device::{have_openings, modules_of};
use crate::fault::{ScriptFault, bad};
use crate::script::{MAX_UPGRADES, OwnDomain};
use crate::texts::{are_all_short, listed_texts};
use crate::values::{at_most, list_member};
use sal_types::{Seq, Str};
use serde_json::{Map, Value};
use std::alloc::Global;

/// Domain 0.
pub(crate) fn own_of(alloc: Global, members: &Map<String, Value>) -> Result<OwnDomain, ScriptFault>
    ensures { Reads (own (members_view members.now.entries)) result (spec.own_of (members_view members.now.entries)) }
{
    let modules = modules_of(alloc, members)?;
    let texts = with_upgrades(alloc, members, modules)?;
    opened(alloc, members, texts)
}

// The texts of the modules with those of the upgrades.
fn with_upgrades(
    alloc: Global,
    members: &Map<String, Value>,
    modules: Vec<Str>,
) -> Result<(Vec<Str>, Vec<Seq<Str>>), ScriptFault>
    ensures upgrades { Reads (λ read. read.1.items) result (spec.or_bad (codes "upgrades") (spec.upgrades_member modules.items (members_view members.now.entries))) }
    ensures short { IfOk result (λ read. IsTrue (are_short (all_texts read.0.items read.1.items))) }
    ensures modules { IfOk result (λ read. read.0 ≡ modules) }
{
    let upgrades = upgrades_in(alloc, members)?;
    if !are_all_short(&modules, &upgrades) {
        return Err(bad(alloc, "upgrades"));
    }
    Ok((modules, upgrades))
}

// These texts, where the openings are objects.
fn opened(
    alloc: Global,
    members: &Map<String, Value>,
    texts: (Vec<Str>, Vec<Seq<Str>>),
) -> Result<OwnDomain, ScriptFault>
    requires { IsTrue (are_short (all_texts texts.0.items texts.1.items)) }
    ensures device { Reads (λ read. (own (members_view members.now.entries) read).device) result (spec.with_openings (members_view members.now.entries) texts.0.items) }
    ensures upgrades { IfOk result (λ read. read.upgrades ≡ texts.1.items) }
{
    have_openings(alloc, members)?;
    Ok(OwnDomain {
        modules: Seq::from_items(texts.0),
        upgrades: Seq::from_items(texts.1),
    })
}

// The texts that each upgrade adds.
fn upgrades_in(alloc: Global, members: &Map<String, Value>) -> Result<Vec<Seq<Str>>, ScriptFault>
    ensures { Reads (λ upgrades. upgrades.items) result (spec.or_bad (codes "upgrades") (spec.listed_upgrades (members_view members.now.entries))) }
{
    match at_most(MAX_UPGRADES, list_member(members, "upgrades")) {
        Some(list) => upgrades_of(alloc, list),
        None => Err(bad(alloc, "upgrades")),
    }
}

// The texts of each of these.
fn upgrades_of(alloc: Global, list: &[Value]) -> Result<Vec<Seq<Str>>, ScriptFault>
    ensures { Reads (λ upgrades. upgrades.items) result (spec.or_bad (codes "upgrades") (spec.all_of spec.texts_in (map view list.now))) }
{
    let mut upgrades = Vec::with_capacity(alloc, list.len())?;
    for value in list {
        let texts = listed_texts(alloc, "upgrades", value)?;
        upgrades.push(Seq::from_items(texts))?;
    }
    Ok(upgrades)
}
