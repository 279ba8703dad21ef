//! A first program over the broker, to be copied: a client greets in a transaction, and a listener hears it.
#![tactic(auto)]

use anyhow::bail;
use sal::{
    Duplicate, Mode, Path, Patterns, Rows, Rules, Schema, Store, Tries, Work, WriteTx, is_for,
    open_empty, read_data, read_path, schema_of, update,
};
use serde_json::Value;
use std::alloc::Global;
use std::sync::Arc;

const MODULE: &str = "module hello {
  namespace 'urn:example:hello';
  prefix h;
  leaf greeting { type string; }
}";

/// A greeting: the path of its leaf, and the rows that a transaction puts there.
#[derive(Drop)]
struct Greeting {
    path: Path,
    rows: Rows,
}

impl Greeting {
    /// The greeting of this JSON text.
    fn of(alloc: Global, schema: &Schema, json: &str) -> anyhow::Result<Greeting> {
        let patterns = Patterns::of(alloc, schema)?;
        let path = read_path(alloc, schema, &patterns, "/hello:greeting")?;
        let json = Value::from_str(alloc, json)?;
        let rows = read_data(alloc, schema, &patterns, &path, &json)?;
        Ok(Greeting { path, rows })
    }
}

impl Work for Greeting {
    type Fault = anyhow::Error;

    fn run(&mut self, alloc: Global, tx: &mut WriteTx) -> anyhow::Result<()> {
        if !is_for(tx.schema(), Store::Config, &self.path, &self.rows) {
            bail!("the schema has no such greeting");
        }
        let path = self.path.copy()?;
        let rows = self.rows.copy()?;
        Ok(tx.put(alloc, Store::Config, path, rows)?)
    }
}

fn main(rt: HostRuntime) -> anyhow::Result<()> {
    let alloc = rt.alloc();
    let schema = Arc::new(alloc, schema_of(alloc, &[MODULE])?)?;
    let mut greeting = Greeting::of(alloc, &schema, "\"hello, broker\"")?;
    let (sal, mut opening) = open_empty(alloc, schema, Rules::One)?;
    let mut seat = sal.split(&mut opening, 1);
    let (id, _) = sal.listen(&rt, alloc, &mut opening, 0, Store::Config, &greeting.path)?;
    let tries = Tries {
        domain: 0,
        mode: Mode::Rw,
        again: 9,
    };
    let outcome = update(&sal, &rt, alloc, &mut seat, tries, &mut greeting)?;
    let batch = sal.take(&rt, alloc, &mut opening, id)?;
    println!(rt; "{outcome:?}, told of {}", batch.lists.items().len())?;
    Ok(())
}
