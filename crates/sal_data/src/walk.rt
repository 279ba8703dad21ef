//! The walk over a JSON value, which appends rows in the order of the text.
ghost use Rattle.std.specs.Prelude.{[], Err, if◌then◌else◌};
ghost use Rattle.serde_json.specs.View.{view, items_view, members_view};
ghost use Rattle.sal_types.specs.Reading.{GivesUnless};
ghost use Rattle.sal_schema.specs.Kinds as kinds;
ghost use Rattle.sal_schema.specs.Table as table;
ghost use Rattle.sal_data.specs.Read as spec;
ghost use Rattle.sal_data.specs.Walked as walked;

use crate::entries::{entered, longer, mark};
use crate::fault::DataFault;
use crate::members::member_node;
use crate::reader::Reader;
use crate::seen::Seen;
use sal_schema::lookups::{has_entries, is_leaf, is_leaf_list, is_list, is_presence};
use sal_types::{Cell, Duplicate, Path, Row, Step};
use serde_json::{Map, Value as Json};

impl<'a> Reader<'a> {
    /// Appends the row of the leaf at the path.
    fn leaf_rows(
        &self,
        node: u32,
        path: Path,
        json: &Json,
        out: &mut Vec<Row>,
    ) -> Result<(), DataFault>
        ensures { GivesUnless DataFault.NoMemory (λ _. out.new.items) result (spec.followed out.old.items (spec.leaf_rows self.now.schema.now node path (view json.now))) }
    {
        let value = self.value_at(&path, node, json)?;
        out.push(Row {
            path,
            cell: Cell::Leaf(value),
        })?;
        Ok(())
    }

    /// Appends the rows of the node at the path.
    #[cycle(walk)]
    pub(crate) fn node_rows(
        &self,
        node: u32,
        path: Path,
        json: &Json,
        out: &mut Vec<Row>,
    ) -> Result<(), DataFault>
        ensures { GivesUnless DataFault.NoMemory (λ _. out.new.items) result (spec.followed out.old.items (spec.node_rows self.now.schema.now node path (view json.now))) }
    {
        if is_leaf(self.schema, node) {
            return self.leaf_rows(node, path, json, out);
        }
        match json {
            Json::Array(items) => self.array_rows(node, path, items, out),
            Json::Object(members) => self.container_rows(node, path, members, out),
            _ => Err(DataFault::WrongShape { path }),
        }
    }

    /// Appends the entries of the list or leaf-list at the path.
    #[cycle(walk)]
    fn array_rows(
        &self,
        node: u32,
        path: Path,
        items: &Vec<Json>,
        out: &mut Vec<Row>,
    ) -> Result<(), DataFault>
        ensures { GivesUnless DataFault.NoMemory (λ _. out.new.items) result (spec.followed out.old.items (
            if table.is_kind kinds.is_list self.now.schema.now node then spec.entries_rows self.now.schema.now node path [] (items_view items.now.items)
            else if table.is_kind kinds.is_leaf_list self.now.schema.now node then spec.items_rows self.now.schema.now node path [] (items_view items.now.items)
            else Err (DataFault.WrongShape path))) }
    {
        if is_list(self.schema, node) {
            let mut seen = Seen::new(self.alloc);
            self.entries_rows(node, &path, items, &mut seen, out)
        } else if is_leaf_list(self.schema, node) {
            let mut seen = Seen::new(self.alloc);
            self.items_rows(node, &path, items, &mut seen, out)
        } else {
            Err(DataFault::WrongShape { path })
        }
    }

    /// Appends the rows of the container at the path.
    #[cycle(walk)]
    fn container_rows(
        &self,
        node: u32,
        path: Path,
        members: &Map<String, Json>,
        out: &mut Vec<Row>,
    ) -> Result<(), DataFault>
        ensures { GivesUnless DataFault.NoMemory (λ _. out.new.items) result (spec.followed out.old.items (
            if table.is_kind kinds.has_entries self.now.schema.now node then Err (DataFault.WrongShape path)
            else spec.marked (table.is_kind kinds.is_presence self.now.schema.now node) path (spec.members_rows self.now.schema.now (Some node) path (members_view members.now.entries)))) }
    {
        if has_entries(self.schema, node) {
            return Err(DataFault::WrongShape { path });
        }
        if is_presence(self.schema, node) {
            mark(&path, out)?;
        }
        self.members_rows(Some(node), &path, members, out)
    }

    /// Appends the children of a node, or of the root, that the object at the path has.
    #[cycle(walk)]
    pub(crate) fn object_rows(
        &self,
        parent: Option<u32>,
        path: &Path,
        json: &Json,
        out: &mut Vec<Row>,
    ) -> Result<(), DataFault>
        ensures { GivesUnless DataFault.NoMemory (λ _. out.new.items) result (spec.followed out.old.items (spec.object_rows self.now.schema.now parent path.now (view json.now))) }
    {
        match json {
            Json::Object(members) => self.members_rows(parent, path, members, out),
            _ => Err(DataFault::WrongShape { path: path.copy()? }),
        }
    }

    /// Appends the children that these members denote, in byte order of their names.
    #[cycle(walk)]
    fn members_rows(
        &self,
        parent: Option<u32>,
        path: &Path,
        members: &Map<String, Json>,
        out: &mut Vec<Row>,
    ) -> Result<(), DataFault>
        ensures { GivesUnless DataFault.NoMemory (λ _. out.new.items) result (spec.followed out.old.items (spec.members_rows self.now.schema.now parent path.now (members_view members.now.entries))) }
    {
        for (name, member) in members.iter() {
            self.member_rows(parent, path, name.as_str(), member, out)?;
        }
        Ok(())
    }

    /// Appends the child that a member denotes.
    #[cycle(walk)]
    fn member_rows(
        &self,
        parent: Option<u32>,
        path: &Path,
        name: &str,
        json: &Json,
        out: &mut Vec<Row>,
    ) -> Result<(), DataFault>
        ensures { GivesUnless DataFault.NoMemory (λ _. out.new.items) result (spec.followed out.old.items (walked.member_rows self.now.schema.now parent path.now name.now (view json.now))) }
    {
        let node = member_node(self.alloc, self.schema, parent, path, name)?;
        let below = longer(self.alloc, path, Step::Node(node))?;
        self.node_rows(node, below, json, out)
    }

    /// Appends the entries of the list at the path; `seen` has the entries before these.
    #[cycle(walk)]
    fn entries_rows(
        &self,
        node: u32,
        path: &Path,
        items: &Vec<Json>,
        seen: &mut Seen,
        out: &mut Vec<Row>,
    ) -> Result<(), DataFault>
        ensures { GivesUnless DataFault.NoMemory (λ _. out.new.items) result (spec.followed out.old.items (spec.entries_rows self.now.schema.now node path.now seen.old (items_view items.now.items))) }
    {
        for item in items {
            let step = self.key_step(node, path, item)?;
            let below = entered(self.alloc, path, step, seen)?;
            mark(&below, out)?;
            self.object_rows(Some(node), &below, item, out)?;
        }
        Ok(())
    }
}
