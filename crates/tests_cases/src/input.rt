//! The input of a case, from its files.
use crate::case::Case;
use std::alloc::Global;
use std::io;

/// The input.
pub fn of_case(case: Case<'_>) -> io::Result<String> {
    if case.has("json")? {
        script(case)
    } else if case.has("yang")? {
        let modules = case.text("yang")?;
        of_modules(case.alloc(), modules.as_str())
    } else {
        let parts = case.text("parts")?;
        repeated(case.alloc(), parts.as_str())
    }
}

// The script, with the modules of the folder as its first member if there are any.
fn script(case: Case<'_>) -> io::Result<String> {
    if case.shares("modules.yang")? {
        let modules = case.shared_text("modules.yang")?;
        over_modules(case, modules.as_str())
    } else {
        case.text("json")
    }
}

fn over_modules(case: Case<'_>, modules: &str) -> io::Result<String> {
    let script = case.text("json")?;
    with_modules(case.alloc(), modules, script.as_str())
}

fn with_modules(alloc: Global, modules: &str, script: &str) -> io::Result<String> {
    let mut all = String::new(alloc);
    push_script(&mut all, modules, script)?;
    Ok(all)
}

fn push_script(all: &mut String, modules: &str, script: &str) -> io::Result<()> {
    all.push_str("{\"modules\":[")?;
    push_modules(all, modules)?;
    all.push_str("],")?;
    all.push_str(script.strip_prefix('{').unwrap_or(script))?;
    Ok(())
}

// A script with modules only.
fn of_modules(alloc: Global, modules: &str) -> io::Result<String> {
    let mut all = String::new(alloc);
    push_alone(&mut all, modules)?;
    Ok(all)
}

fn push_alone(all: &mut String, modules: &str) -> io::Result<()> {
    all.push_str("{\"modules\":[")?;
    push_modules(all, modules)?;
    all.push_str("]}")?;
    Ok(())
}

// The modules as JSON texts with commas between. A line that begins with the word `module` begins the next one.
fn push_modules(all: &mut String, modules: &str) -> io::Result<()> {
    let mut begun = false;
    for line in modules.lines() {
        all.push_str(ahead_of(line, begun))?;
        push_escaped(all, line)?;
        begun = true;
    }
    all.push('"')?;
    Ok(())
}

// The text between a line and the one before, if one was begun.
fn ahead_of(line: &str, begun: bool) -> &'static str {
    if !begun {
        "\""
    } else if line.starts_with("module ") {
        "\",\""
    } else {
        "\\n"
    }
}

fn push_escaped(all: &mut String, line: &str) -> io::Result<()> {
    for character in line.chars() {
        match character {
            '"' => all.push_str("\\\"")?,
            '\\' => all.push_str("\\\\")?,
            '\t' => all.push_str("\\t")?,
            other => all.push(other)?,
        }
    }
    Ok(())
}

// The text that lines `COUNT |TEXT|` denote.
fn repeated(alloc: Global, parts: &str) -> io::Result<String> {
    let mut all = String::new(alloc);
    push_parts(&mut all, parts)?;
    Ok(all)
}

fn push_parts(all: &mut String, parts: &str) -> io::Result<()> {
    for line in parts.lines() {
        if let Some((count, rest)) = line.split_once(" |") {
            let text = rest.strip_suffix('|').unwrap_or(rest);
            push_times(all, text, count.parse::<u32>().unwrap_or(0))?;
        }
    }
    Ok(())
}

// The text `count` times, with the number of each in place of `#`.
fn push_times(all: &mut String, text: &str, count: u32) -> io::Result<()> {
    match text.split_once('#') {
        Some((front, behind)) => {
            for number in 0..count {
                push_numbered(all, front, number, behind)?;
            }
        }
        None => {
            for _ in 0..count {
                all.push_str(text)?;
            }
        }
    }
    Ok(())
}

fn push_numbered(all: &mut String, front: &str, number: u32, behind: &str) -> io::Result<()> {
    all.push_str(front)?;
    write!(all, "{number}")?;
    all.push_str(behind)?;
    Ok(())
}
