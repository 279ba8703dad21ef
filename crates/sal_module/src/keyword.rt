//! The keywords of the profile.
ghost use Rattle.std.specs.Prelude.{◌≡◌, map, IfSome};
ghost use Rattle.sal_stmt.specs.Words as bytes;
ghost use Rattle.sal_module.specs.Keywords as spec;

/// A keyword of YANG in the profile. RFC 7950 section 7 defines the statement of each.
#[derive(Clone, Copy, PartialEq, Eq)]
pub enum Keyword {
    Module,
    YangVersion,
    Namespace,
    Prefix,
    Import,
    Organization,
    Contact,
    Description,
    Reference,
    Revision,
    Extension,
    Feature,
    Identity,
    Typedef,
    Grouping,
    Augment,
    Rpc,
    Notification,
    Container,
    Leaf,
    LeafList,
    List,
    Choice,
    Uses,
    RevisionDate,
    Presence,
    Config,
    Must,
    When,
    IfFeature,
    Status,
    Type,
    Units,
    Default,
    Mandatory,
    MinElements,
    MaxElements,
    OrderedBy,
    Key,
    Unique,
    Case,
    Input,
    Output,
    Range,
    Length,
    Pattern,
    Enum,
    Bit,
    FractionDigits,
    Path,
    RequireInstance,
    Base,
    Modifier,
    ErrorMessage,
    ErrorAppTag,
    Value,
    Position,
}

/// Each keyword with its spelling.
pub const WORDS: [(&str, Keyword); 57] = [
    ("module", Keyword::Module),
    ("yang-version", Keyword::YangVersion),
    ("namespace", Keyword::Namespace),
    ("prefix", Keyword::Prefix),
    ("import", Keyword::Import),
    ("organization", Keyword::Organization),
    ("contact", Keyword::Contact),
    ("description", Keyword::Description),
    ("reference", Keyword::Reference),
    ("revision", Keyword::Revision),
    ("extension", Keyword::Extension),
    ("feature", Keyword::Feature),
    ("identity", Keyword::Identity),
    ("typedef", Keyword::Typedef),
    ("grouping", Keyword::Grouping),
    ("augment", Keyword::Augment),
    ("rpc", Keyword::Rpc),
    ("notification", Keyword::Notification),
    ("container", Keyword::Container),
    ("leaf", Keyword::Leaf),
    ("leaf-list", Keyword::LeafList),
    ("list", Keyword::List),
    ("choice", Keyword::Choice),
    ("uses", Keyword::Uses),
    ("revision-date", Keyword::RevisionDate),
    ("presence", Keyword::Presence),
    ("config", Keyword::Config),
    ("must", Keyword::Must),
    ("when", Keyword::When),
    ("if-feature", Keyword::IfFeature),
    ("status", Keyword::Status),
    ("type", Keyword::Type),
    ("units", Keyword::Units),
    ("default", Keyword::Default),
    ("mandatory", Keyword::Mandatory),
    ("min-elements", Keyword::MinElements),
    ("max-elements", Keyword::MaxElements),
    ("ordered-by", Keyword::OrderedBy),
    ("key", Keyword::Key),
    ("unique", Keyword::Unique),
    ("case", Keyword::Case),
    ("input", Keyword::Input),
    ("output", Keyword::Output),
    ("range", Keyword::Range),
    ("length", Keyword::Length),
    ("pattern", Keyword::Pattern),
    ("enum", Keyword::Enum),
    ("bit", Keyword::Bit),
    ("fraction-digits", Keyword::FractionDigits),
    ("path", Keyword::Path),
    ("require-instance", Keyword::RequireInstance),
    ("base", Keyword::Base),
    ("modifier", Keyword::Modifier),
    ("error-message", Keyword::ErrorMessage),
    ("error-app-tag", Keyword::ErrorAppTag),
    ("value", Keyword::Value),
    ("position", Keyword::Position),
];

// The spellings by their first byte.

const WITH_A: &[(&str, Keyword)] = &[("augment", Keyword::Augment)];

const WITH_B: &[(&str, Keyword)] = &[("bit", Keyword::Bit), ("base", Keyword::Base)];

const WITH_C: &[(&str, Keyword)] = &[
    ("contact", Keyword::Contact),
    ("container", Keyword::Container),
    ("choice", Keyword::Choice),
    ("config", Keyword::Config),
    ("case", Keyword::Case),
];

const WITH_D: &[(&str, Keyword)] = &[
    ("description", Keyword::Description),
    ("default", Keyword::Default),
];

const WITH_E: &[(&str, Keyword)] = &[
    ("extension", Keyword::Extension),
    ("enum", Keyword::Enum),
    ("error-message", Keyword::ErrorMessage),
    ("error-app-tag", Keyword::ErrorAppTag),
];

const WITH_F: &[(&str, Keyword)] = &[
    ("feature", Keyword::Feature),
    ("fraction-digits", Keyword::FractionDigits),
];

const WITH_G: &[(&str, Keyword)] = &[("grouping", Keyword::Grouping)];

const WITH_I: &[(&str, Keyword)] = &[
    ("import", Keyword::Import),
    ("identity", Keyword::Identity),
    ("if-feature", Keyword::IfFeature),
    ("input", Keyword::Input),
];

const WITH_K: &[(&str, Keyword)] = &[("key", Keyword::Key)];

const WITH_L: &[(&str, Keyword)] = &[
    ("leaf", Keyword::Leaf),
    ("leaf-list", Keyword::LeafList),
    ("list", Keyword::List),
    ("length", Keyword::Length),
];

const WITH_M: &[(&str, Keyword)] = &[
    ("module", Keyword::Module),
    ("must", Keyword::Must),
    ("mandatory", Keyword::Mandatory),
    ("min-elements", Keyword::MinElements),
    ("max-elements", Keyword::MaxElements),
    ("modifier", Keyword::Modifier),
];

const WITH_N: &[(&str, Keyword)] = &[
    ("namespace", Keyword::Namespace),
    ("notification", Keyword::Notification),
];

const WITH_O: &[(&str, Keyword)] = &[
    ("organization", Keyword::Organization),
    ("ordered-by", Keyword::OrderedBy),
    ("output", Keyword::Output),
];

const WITH_P: &[(&str, Keyword)] = &[
    ("prefix", Keyword::Prefix),
    ("presence", Keyword::Presence),
    ("pattern", Keyword::Pattern),
    ("path", Keyword::Path),
    ("position", Keyword::Position),
];

const WITH_R: &[(&str, Keyword)] = &[
    ("reference", Keyword::Reference),
    ("revision", Keyword::Revision),
    ("rpc", Keyword::Rpc),
    ("revision-date", Keyword::RevisionDate),
    ("range", Keyword::Range),
    ("require-instance", Keyword::RequireInstance),
];

const WITH_S: &[(&str, Keyword)] = &[("status", Keyword::Status)];

const WITH_T: &[(&str, Keyword)] = &[("typedef", Keyword::Typedef), ("type", Keyword::Type)];

const WITH_U: &[(&str, Keyword)] = &[
    ("uses", Keyword::Uses),
    ("units", Keyword::Units),
    ("unique", Keyword::Unique),
];

const WITH_V: &[(&str, Keyword)] = &[("value", Keyword::Value)];

const WITH_W: &[(&str, Keyword)] = &[("when", Keyword::When)];

const WITH_Y: &[(&str, Keyword)] = &[("yang-version", Keyword::YangVersion)];

fn find_word(words: &[(&'static str, Keyword)], text: &str) -> Option<Keyword>
    ensures { result ≡ spec.keyword_among (map spec.word_view words.now) text.now }
{
    for word in words {
        if word.0 == text {
            return Some(word.1);
        }
    }
    None
}

fn find_text(words: &[(&'static str, Keyword)], keyword: Keyword) -> &'static str
    ensures { result.now ≡ spec.word_among (map spec.word_view words.now) keyword }
{
    for word in words {
        if word.1 == keyword {
            return word.0;
        }
    }
    ""
}

/// The spellings that begin with this byte, if any.
#[tactic(auto, unfolding(crate::specs::Keywords::words))]
fn words_with(first: u8) -> Option<&'static [(&'static str, Keyword)]>
    ensures { IfSome result (λ some. map spec.word_view some.now ≡ spec.words_with first) }
{
    match first {
        b'a' => Some(WITH_A),
        b'b' => Some(WITH_B),
        b'c' => Some(WITH_C),
        b'd' => Some(WITH_D),
        b'e' => Some(WITH_E),
        b'f' => Some(WITH_F),
        b'g' => Some(WITH_G),
        b'i' => Some(WITH_I),
        b'k' => Some(WITH_K),
        b'l' => Some(WITH_L),
        b'm' => Some(WITH_M),
        b'n' => Some(WITH_N),
        b'o' => Some(WITH_O),
        b'p' => Some(WITH_P),
        b'r' => Some(WITH_R),
        b's' => Some(WITH_S),
        b't' => Some(WITH_T),
        b'u' => Some(WITH_U),
        b'v' => Some(WITH_V),
        b'w' => Some(WITH_W),
        b'y' => Some(WITH_Y),
        _ => None,
    }
}

fn first(text: &[u8]) -> u8
    ensures { result ≡ bytes.first text.now }
{
    if text.is_empty() { 0 } else { text[0] }
}

fn first_of(text: &str) -> u8
    ensures { result ≡ bytes.first text.now }
{
    first(text.as_bytes())
}

/// Looks through all spellings.
#[tactic(auto, unfolding(crate::specs::Keywords::keyword_of))]
fn find_any(text: &str) -> Option<Keyword>
    ensures { result ≡ spec.keyword_of text.now }
{
    find_word(&WORDS, text)
}

/// The keyword with this spelling. None for a text with a prefix, and for a keyword that the profile does not have.
pub fn keyword_of(text: &str) -> Option<Keyword>
    ensures { result ≡ spec.keyword_of text.now }
{
    match words_with(first_of(text)) {
        None => find_any(text),
        Some(some) => find_word(some, text),
    }
}

impl Keyword {
    /// The spelling of this keyword.
    #[tactic(auto, unfolding(crate::specs::Keywords::word_of))]
    pub fn word(self) -> &'static str
        ensures { result.now ≡ spec.word_of self }
    {
        match self {
            Keyword::Module => "module",
            Keyword::YangVersion => "yang-version",
            Keyword::Namespace => "namespace",
            Keyword::Prefix => "prefix",
            Keyword::Import => "import",
            Keyword::Organization => "organization",
            Keyword::Contact => "contact",
            Keyword::Description => "description",
            Keyword::Reference => "reference",
            Keyword::Revision => "revision",
            Keyword::Extension => "extension",
            Keyword::Feature => "feature",
            Keyword::Identity => "identity",
            Keyword::Typedef => "typedef",
            Keyword::Grouping => "grouping",
            Keyword::Augment => "augment",
            Keyword::Rpc => "rpc",
            Keyword::Notification => "notification",
            Keyword::Container => "container",
            Keyword::Leaf => "leaf",
            Keyword::LeafList => "leaf-list",
            Keyword::List => "list",
            Keyword::Choice => "choice",
            Keyword::Uses => "uses",
            Keyword::RevisionDate => "revision-date",
            Keyword::Presence => "presence",
            Keyword::Config => "config",
            Keyword::Must => "must",
            Keyword::When => "when",
            Keyword::IfFeature => "if-feature",
            Keyword::Status => "status",
            _ => self.later_word(),
        }
    }

    /// The same; it looks through the second part of the spellings first.
    #[tactic(auto, unfolding(crate::specs::Keywords::word_of))]
    fn later_word(self) -> &'static str
        ensures { result.now ≡ spec.word_of self }
    {
        match self {
            Keyword::Type => "type",
            Keyword::Units => "units",
            Keyword::Default => "default",
            Keyword::Mandatory => "mandatory",
            Keyword::MinElements => "min-elements",
            Keyword::MaxElements => "max-elements",
            Keyword::OrderedBy => "ordered-by",
            Keyword::Key => "key",
            Keyword::Unique => "unique",
            Keyword::Case => "case",
            Keyword::Input => "input",
            Keyword::Output => "output",
            Keyword::Range => "range",
            Keyword::Length => "length",
            Keyword::Pattern => "pattern",
            Keyword::Enum => "enum",
            Keyword::Bit => "bit",
            Keyword::FractionDigits => "fraction-digits",
            Keyword::Path => "path",
            Keyword::RequireInstance => "require-instance",
            Keyword::Base => "base",
            Keyword::Modifier => "modifier",
            Keyword::ErrorMessage => "error-message",
            Keyword::ErrorAppTag => "error-app-tag",
            Keyword::Value => "value",
            Keyword::Position => "position",
            _ => find_text(&WORDS, self),
        }
    }
}
