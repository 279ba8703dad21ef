//! Kinds of schema nodes (RFC 7950 section 7).
ghost use Rattle.std.specs.Prelude.{◌≡◌};
ghost use Rattle.sal_schema.specs.Kinds as spec;

/// The kind of a schema node. A presence container is data even if it is empty.
#[derive(Clone, Copy, PartialEq, Eq)]
pub enum Kind {
    Container { presence: bool },
    List,
    LeafList,
    Leaf,
    Choice,
    Case,
    Rpc,
    Input,
    Output,
    Notification,
}

impl Kind {
    /// Whether it is a container, a list, a leaf-list or a leaf: the nodes that the steps of a path name.
    pub fn is_data(&self) -> bool
        ensures { result ≡ spec.is_data self.now }
    {
        match self {
            Kind::Container { .. } | Kind::List | Kind::LeafList | Kind::Leaf => true,
            _ => false,
        }
    }

    /// Whether it is a choice or a case, which paths skip.
    pub fn is_choice_or_case(&self) -> bool
        ensures { result ≡ spec.is_choice_or_case self.now }
    {
        match self {
            Kind::Choice | Kind::Case => true,
            _ => false,
        }
    }

    /// Whether it is an input, an output or a notification: the parent of the data of a message.
    pub fn is_message(&self) -> bool
        ensures { result ≡ spec.is_message self.now }
    {
        match self {
            Kind::Input | Kind::Output | Kind::Notification => true,
            _ => false,
        }
    }

    /// Whether it is a list or a leaf-list, whose entries have keys or a value.
    pub fn has_entries(&self) -> bool
        ensures { result ≡ spec.has_entries self.now }
    {
        match self {
            Kind::List | Kind::LeafList => true,
            _ => false,
        }
    }

    /// The kind's word in the table's text.
    pub fn word(&self) -> &'static str
        ensures { result.now ≡ spec.word self.now }
    {
        match self {
            Kind::Container { presence: false } => "container",
            Kind::Container { presence: true } => "presence",
            Kind::List => "list",
            Kind::LeafList => "leaf-list",
            Kind::Leaf => "leaf",
            Kind::Choice => "choice",
            Kind::Case => "case",
            Kind::Rpc => "rpc",
            Kind::Input => "input",
            Kind::Output => "output",
            Kind::Notification => "notification",
        }
    }
}
