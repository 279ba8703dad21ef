//! The text of a table.
ghost use Rattle.std.specs.Prelude.{◌≡◌, ◌++◌, IfOk, OnOk, string_bytes};
ghost use Rattle.std.specs.Fmt.{decimal};
ghost use Rattle.sal_schema.specs.Table.{module_name, name_of};
ghost use Rattle.sal_schema.specs.Text as spec;

use crate::kind::Kind;
use crate::schema::Schema;
use crate::table::NodeInfo;
use sal_types::{NoMemory, Str};
use std::alloc::{AllocError, Global};
use std::fmt::Write;

impl Schema {
    /// The table as text: a line for each node, with its number, its parent's number or `-`, its kind, its name, whether it
    /// is configuration or state, and then the built-in type of a leaf or leaf-list, or the keys of a list.
    pub fn text(&self, alloc: Global) -> Result<Str, NoMemory>
        ensures { IfOk result (λ text. text ≡ spec.table_text self.now) }
    {
        let mut text = String::new(alloc);
        for (i, node) in self.table.nodes.items().iter().enumerate() {
            self.push_line(&mut text, i as u32, node)?;
        }
        Ok(Str::from_string(text))
    }

    fn push_line(&self, text: &mut String, number: u32, node: &NodeInfo) -> Result<(), NoMemory>
        ensures { OnOk result (string_bytes text.new ≡ string_bytes text.old ++ spec.line_of self.now number node.now) }
    {
        push_head(text, number, node)?;
        self.push_middle(text, node)?;
        self.push_tail(text, node)
    }

    fn push_middle(&self, text: &mut String, node: &NodeInfo) -> Result<(), NoMemory>
        ensures { OnOk result (string_bytes text.new ≡ string_bytes text.old ++ spec.middle_of self.now node.now) }
    {
        push_word(text, self.module_or_none(node.module))?;
        text.push(':')?;
        text.push_str(node.name.as_str())?;
        push_word(text, config_word(node.config))
    }

    fn push_tail(&self, text: &mut String, node: &NodeInfo) -> Result<(), NoMemory>
        ensures { OnOk result (string_bytes text.new ≡ string_bytes text.old ++ spec.tail_of self.now node.now) }
    {
        self.push_type(text, node.ty)?;
        self.push_keys(text, node)?;
        text.push('\n')?;
        Ok(())
    }

    fn push_type(&self, text: &mut String, ty: Option<u32>) -> Result<(), NoMemory>
        ensures { OnOk result (string_bytes text.new ≡ string_bytes text.old ++ spec.type_words self.now ty) }
    {
        let Some(number) = ty else {
            return Ok(());
        };
        match self.table.types.items().get(number as usize) {
            Some(ty) => push_word(text, ty.builtin_name()),
            None => Ok(()),
        }
    }

    fn push_keys(&self, text: &mut String, node: &NodeInfo) -> Result<(), NoMemory>
        ensures { OnOk result (string_bytes text.new ≡ string_bytes text.old ++ spec.key_words self.now node.now) }
    {
        if node.kind != Kind::List {
            return Ok(());
        }
        text.push_str(" key")?;
        for leaf in node.keys.items() {
            push_word(text, self.name_or_none(*leaf))?;
        }
        Ok(())
    }

    // The name of a module, or the empty text if no module has that number.
    fn module_or_none(&self, module: u32) -> &str
        ensures { result.now ≡ module_name self.now «module» }
    {
        match self.table.modules.items().get(module as usize) {
            Some(name) => name.as_str(),
            None => "",
        }
    }

    // The name of a node, or the empty text if no node has that number.
    fn name_or_none(&self, node: u32) -> &str
        ensures { result.now ≡ name_of self.now node }
    {
        match self.table.nodes.items().get(node as usize) {
            Some(info) => info.name.as_str(),
            None => "",
        }
    }
}

fn push_number(text: &mut String, number: u32) -> Result<(), NoMemory>
    ensures { OnOk result (string_bytes text.new ≡ string_bytes text.old ++ decimal number) }
{
    let written: Result<(), AllocError> = write!(text, "{number}");
    written?;
    Ok(())
}

fn push_head(text: &mut String, number: u32, node: &NodeInfo) -> Result<(), NoMemory>
    ensures { OnOk result (string_bytes text.new ≡ string_bytes text.old ++ spec.head_of number node.now) }
{
    push_number(text, number)?;
    push_parent(text, node.parent)?;
    push_word(text, node.kind.word())
}

fn push_word(text: &mut String, word: &str) -> Result<(), NoMemory>
    ensures { OnOk result (string_bytes text.new ≡ string_bytes text.old ++ spec.next_word word.now) }
{
    text.push(' ')?;
    text.push_str(word)?;
    Ok(())
}

fn push_parent(text: &mut String, parent: Option<u32>) -> Result<(), NoMemory>
    ensures { OnOk result (string_bytes text.new ≡ string_bytes text.old ++ spec.next_word (spec.number_word parent)) }
{
    match parent {
        None => push_word(text, "-"),
        Some(number) => {
            text.push(' ')?;
            push_number(text, number)
        }
    }
}

fn config_word(config: Option<bool>) -> &'static str
    ensures { result.now ≡ spec.config_word config }
{
    match config {
        None => "-",
        Some(true) => "config",
        Some(false) => "state",
    }
}
