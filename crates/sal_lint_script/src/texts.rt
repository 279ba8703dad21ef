//! The texts of the modules of a script's domains.
ghost use Rattle.std.specs.Prelude.{◌≡◌, ◌++◌, ◌^◌, ◌<◌, IfOk, All, length};
ghost use Rattle.sal_script.specs.Limits.{all_texts};
ghost use Rattle.sal_script.specs.Reading.{parts};
ghost use Rattle.sal_lint_script.specs.Linted as spec;

use sal_script::{Script, ScriptDevice};
use sal_types::{NoMemory, Str};
use std::alloc::Global;

fn push_texts<'a>(list: &mut Vec<&'a str>, texts: &'a [Str]) -> Result<(), NoMemory>
    ensures { IfOk result (λ _. spec.texts_in list.new.items ≡ spec.texts_in list.old.items ++ texts.entry.now) }
{
    for text in texts {
        list.push(text.as_str())?;
    }
    Ok(())
}

// The texts of domain 0: of its modules, and then of each upgrade.
fn own_texts<'a>(alloc: Global, script: &'a Script) -> Result<Vec<&'a str>, NoMemory>
    ensures texts { IfOk result (λ list. spec.texts_in list.items ≡ all_texts script.entry.now.modules script.entry.now.upgrades) }
    ensures short { IfOk result (λ list. All (λ text. length text.now < 2 ^ 32) list.items) }
{
    let mut list = Vec::new(alloc);
    push_texts(&mut list, script.modules.items())?;
    for texts in script.upgrades.items() {
        push_texts(&mut list, texts.items())?;
    }
    Ok(list)
}

fn device_texts<'a>(alloc: Global, device: &'a ScriptDevice) -> Result<Vec<&'a str>, NoMemory>
    ensures texts { IfOk result (λ list. spec.texts_in list.items ≡ device.entry.now.modules) }
    ensures short { IfOk result (λ list. All (λ text. length text.now < 2 ^ 32) list.items) }
{
    let mut list = Vec::new(alloc);
    push_texts(&mut list, device.modules.items())?;
    Ok(list)
}

/// The texts of the domain of this number; none if there is no such domain.
pub(crate) fn texts_at<'a>(
    alloc: Global,
    number: u32,
    script: &'a Script,
) -> Result<Vec<&'a str>, NoMemory>
    ensures texts { IfOk result (λ list. spec.texts_in list.items ≡ spec.texts_at number (parts script.entry.now)) }
    ensures short { IfOk result (λ list. All (λ text. length text.now < 2 ^ 32) list.items) }
{
    if number == 0 {
        return own_texts(alloc, script);
    }
    let devices = script.devices.items();
    let device = number as usize - 1;
    if device < devices.len() {
        return device_texts(alloc, &devices[device]);
    }
    Ok(Vec::new(alloc))
}
