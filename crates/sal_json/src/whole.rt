//! The pattern of a whole text, compiled.
ghost use Rattle.std.specs.Prelude.{◌≡◌, IfOk, IfSome, is_some, map, option_map, string_bytes, true};
ghost use Rattle.regex_extract.specs.Bounds.{IsAnchored};
ghost use Rattle.regex_hir.specs.Meaning.{meaning};
ghost use Rattle.regex_hir.specs.Re.{accept, attempt};
ghost use Rattle.regex_meta.specs.Programs.{pattern_of};
ghost use Rattle.regex_syntax.specs.Verdict.{default_config, Reads};
ghost use Rattle.sal_json.specs.Patterns as spec;
ghost use Rattle.sal_json.specs.Wholes.{kind_text};

use regex::Regex;
use regex_extract::is_anchored_start;
use regex_hir::Hir;
use regex_meta::{Program, Searcher};
use regex_syntax::{Config, ErrorKind, Parsed};
use regex_vm::Backtracker;
use sal_restrict::whole_text;
use sal_types::NoMemory;
use std::alloc::Global;
use std::marker::Model;

/// The most bytes of a compiled pattern, as `Regex::new` has it.
const SIZE_LIMIT: usize = 10 << 20;

/// The most pairs of a state and a byte for which a text is matched step by step. There a bit is cleared for each pair;
/// a search by tables makes them anew for each text, whatever its length.
const FEW_PAIRS: usize = 0x20000;

/// A pattern that matches only from where a text starts. A contract sees the text of the pattern.
#[derive(Drop)]
struct Begun {
    source: String,
    program: Program,
}

impl Model for Begun {
    ghost use Rattle.std.specs.Prelude.{List, ℕ, string_bytes, true};
    ghost use Rattle.regex_extract.specs.Bounds.{IsAnchored};
    ghost use Rattle.regex_hir.specs.Meaning.{meaning};
    ghost use Rattle.sal_json.specs.Patterns.{IsFoundAs};

    ghost Value = { List ℕ };

    ghost view = { λ a. string_bytes a.source };

    ghost invariant = { λ a. IsFoundAs a.program.hir (string_bytes a.source) × ∥ IsAnchored true (meaning a.program.hir) ∥₁ };
}

impl Begun {
    fn new(alloc: Global, source: &str, parsed: Parsed) -> Result<Begun, NoMemory>
        requires read { Reads default_config source.now parsed.hir (map (option_map string_bytes) parsed.names.items) }
        requires begun { IsAnchored true (meaning parsed.hir) }
        ensures { IfOk result (λ it. it ≡ source.now) }
    {
        let Ok(groups) = u32::try_from(parsed.names.len()) else {
            return Err(NoMemory);
        };
        let program = compiled(alloc, parsed.hir, groups)?;
        let source = String::from_str(alloc, source)?;
        Ok(Begun { source, program })
    }

    fn is_found(&self, alloc: Global, text: &str) -> Result<bool, NoMemory>
        ensures { IfOk result (λ found. found ≡ spec.finds self.now text.now) }
    {
        let is_match = is_match(alloc, &self.program, text.as_bytes())?;
        Ok(is_match)
    }
}

fn compiled(alloc: Global, hir: Hir, groups: u32) -> Result<Program, NoMemory>
    ensures { IfOk result (λ program. program.hir ≡ hir) }
{
    match Program::new(alloc, hir, groups, SIZE_LIMIT) {
        Ok(program) => Ok(program),
        Err(_) => Err(NoMemory),
    }
}

/// Whether the pattern matches where the text starts.
fn is_match(alloc: Global, program: &Program, text: &[u8]) -> Result<bool, NoMemory>
    requires { ∥ IsAnchored true (pattern_of program.now) ∥₁ }
    ensures { IfOk result (λ found. found ≡ is_some (attempt text.now (pattern_of program.now) accept 0)) }
{
    match in_steps(alloc, program, text) {
        Some(found) => Ok(found),
        None => by_tables(alloc, program, text),
    }
}

/// The same for a short text, without tables. None for a long one, or if memory ran out.
fn in_steps(alloc: Global, program: &Program, text: &[u8]) -> Option<bool>
    ensures { IfSome result (λ found. found ≡ is_some (attempt text.now (pattern_of program.now) accept 0)) }
{
    let nfa = &program.dfa.nfa;
    if text.len() >= FEW_PAIRS / nfa.states.len() {
        return None;
    }
    let mut backtracker = Backtracker::new(alloc);
    match backtracker.find(nfa, text, 0, 0, text.len(), &mut []) {
        Ok(found) => Some(found.is_some()),
        Err(_) => None,
    }
}

/// The same by tables that are made as the text is read, fast for a long one.
fn by_tables(alloc: Global, program: &Program, text: &[u8]) -> Result<bool, NoMemory>
    requires { ∥ IsAnchored true (pattern_of program.now) ∥₁ }
    ensures { IfOk result (λ found. found ≡ is_some (attempt text.now (pattern_of program.now) accept 0)) }
{
    let mut searcher = Searcher::new(alloc, program)?;
    Ok(searcher.is_match(text, 0))
}

/// A pattern that may match from elsewhere, such as `a)|(?:b`. A contract sees the text of the pattern.
#[derive(Drop)]
struct Free {
    regex: Regex,
}

impl Model for Free {
    ghost use Rattle.std.specs.Prelude.{List, ℕ, ◌≡◌};
    ghost use Rattle.regex.specs.Strings.{regex_source, regex_config, IsReadFromSource};
    ghost use Rattle.regex_syntax.specs.Verdict.{default_config};

    ghost Value = { List ℕ };

    ghost view = { λ a. regex_source a.regex };

    ghost invariant = { λ a. (regex_config a.regex ≡ default_config) × IsReadFromSource a.regex };
}

impl Free {
    fn new(alloc: Global, source: &str) -> Result<Free, NoMemory>
        ensures { IfOk result (λ it. it ≡ source.now) }
    {
        match Regex::new(alloc, source) {
            Ok(regex) => Ok(Free { regex }),
            Err(_) => Err(NoMemory),
        }
    }

    fn is_found(&self, alloc: Global, text: &str) -> Result<bool, NoMemory>
        ensures { IfOk result (λ found. found ≡ spec.finds self.now text.now) }
    {
        let mut matcher = self.regex.matcher(alloc)?;
        Ok(matcher.is_match(text))
    }
}

#[derive(Drop)]
enum Kind {
    Begun(Begun),
    Free(Free),
}

fn kind_of(alloc: Global, source: &str, parsed: Parsed) -> Result<Kind, NoMemory>
    requires { Reads default_config source.now parsed.hir (map (option_map string_bytes) parsed.names.items) }
    ensures { IfOk result (λ kind. kind_text kind ≡ source.now) }
{
    if is_anchored_start(&parsed.hir) {
        let begun = Begun::new(alloc, source, parsed)?;
        Ok(Kind::Begun(begun))
    } else {
        let free = Free::new(alloc, source)?;
        Ok(Kind::Free(free))
    }
}

/// A pattern of a whole text. A contract sees the text of the pattern that is searched for.
#[derive(Drop)]
pub(crate) struct Whole {
    kind: Kind,
}

impl Model for Whole {
    ghost use Rattle.std.specs.Prelude.{List, ℕ};
    ghost use Rattle.sal_json.specs.Wholes.{kind_text};

    ghost Value = { List ℕ };

    ghost view = { λ a. kind_text a.kind };
}

impl Whole {
    /// The pattern, or none if it is malformed.
    pub(crate) fn new(alloc: Global, text: &str) -> Result<Option<Whole>, NoMemory>
        ensures { IfOk result (λ found. spec.IsWhole text.now found) }
    {
        let whole = whole_text(alloc, text)?;
        match regex_syntax::parse(alloc, whole.as_str(), &Config::default()) {
            Ok(parsed) => {
                let kind = kind_of(alloc, whole.as_str(), parsed)?;
                Ok(Some(Whole { kind }))
            }
            Err(error) => match error.kind {
                ErrorKind::OutOfMemory => Err(NoMemory),
                _ => Ok(None),
            },
        }
    }

    /// Whether it is found in the text.
    pub(crate) fn is_found(&self, alloc: Global, text: &str) -> Result<bool, NoMemory>
        ensures { IfOk result (λ found. found ≡ spec.finds self.now text.now) }
    {
        match &self.kind {
            Kind::Begun(it) => it.is_found(alloc, text),
            Kind::Free(it) => it.is_found(alloc, text),
        }
    }
}
