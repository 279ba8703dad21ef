//! The profile: the substatements that each statement may have, and the form of its argument.
ghost use Rattle.std.specs.Prelude.{◌≡◌, map, option_map};
ghost use Rattle.sal_module.specs.Table as spec;

use crate::argument::Form;
use crate::keyword::{Keyword, keyword_of};

/// How often a substatement may occur.
#[derive(Clone, Copy, PartialEq, Eq)]
pub enum Often {
    /// At most once.
    Optional,
    /// Exactly once.
    One,
    /// Any number of times.
    Any,
}

/// A keyword, and how often its statement may occur.
pub type Entry = (Keyword, Often);

/// A statement of the profile: its keyword, the form of its argument, and its substatements, in groups.
pub type Row = (Keyword, Form, &'static [&'static [Entry]]);

/// The form of an argument, and the substatements.
pub type Rule = (Form, &'static [&'static [Entry]]);

const DATA: &[Entry] = &[
    (Keyword::Container, Often::Any),
    (Keyword::Leaf, Often::Any),
    (Keyword::LeafList, Often::Any),
    (Keyword::List, Often::Any),
    (Keyword::Choice, Often::Any),
    (Keyword::Uses, Often::Any),
];

const NOTE: &[Entry] = &[
    (Keyword::Status, Often::Optional),
    (Keyword::Description, Often::Optional),
    (Keyword::Reference, Often::Optional),
];

const COND: &[Entry] = &[
    (Keyword::When, Often::Optional),
    (Keyword::IfFeature, Often::Any),
];

const ERR: &[Entry] = &[
    (Keyword::ErrorMessage, Often::Optional),
    (Keyword::ErrorAppTag, Often::Optional),
    (Keyword::Description, Often::Optional),
    (Keyword::Reference, Often::Optional),
];

/// The keywords of YANG that the profile does not support anywhere.
pub const LEFT_OUT: [&str; 9] = [
    "submodule",
    "include",
    "belongs-to",
    "deviation",
    "deviate",
    "anydata",
    "anyxml",
    "action",
    "refine",
];

/// The rows. A keyword without a row takes any text and has no substatements.
pub const TABLE: [Row; 37] = [
    (
        Keyword::Module,
        Form::Identifier,
        &[
            &[
                (Keyword::YangVersion, Often::Optional),
                (Keyword::Namespace, Often::One),
                (Keyword::Prefix, Often::One),
                (Keyword::Import, Often::Any),
                (Keyword::Organization, Often::Optional),
                (Keyword::Contact, Often::Optional),
                (Keyword::Description, Often::Optional),
                (Keyword::Reference, Often::Optional),
                (Keyword::Revision, Often::Any),
                (Keyword::Extension, Often::Any),
                (Keyword::Feature, Often::Any),
                (Keyword::Identity, Often::Any),
                (Keyword::Typedef, Often::Any),
                (Keyword::Grouping, Often::Any),
                (Keyword::Augment, Often::Any),
                (Keyword::Rpc, Often::Any),
                (Keyword::Notification, Often::Any),
            ],
            DATA,
        ],
    ),
    (
        Keyword::Import,
        Form::Identifier,
        &[&[
            (Keyword::Prefix, Often::One),
            (Keyword::RevisionDate, Often::Optional),
            (Keyword::Description, Often::Optional),
            (Keyword::Reference, Often::Optional),
        ]],
    ),
    (
        Keyword::Revision,
        Form::Text,
        &[&[
            (Keyword::Description, Often::Optional),
            (Keyword::Reference, Often::Optional),
        ]],
    ),
    (
        Keyword::Container,
        Form::Identifier,
        &[
            &[
                (Keyword::Presence, Often::Optional),
                (Keyword::Config, Often::Optional),
                (Keyword::Must, Often::Any),
                (Keyword::Typedef, Often::Any),
                (Keyword::Grouping, Often::Any),
            ],
            COND,
            NOTE,
            DATA,
        ],
    ),
    (
        Keyword::Leaf,
        Form::Identifier,
        &[
            &[
                (Keyword::Type, Often::One),
                (Keyword::Units, Often::Optional),
                (Keyword::Default, Often::Optional),
                (Keyword::Config, Often::Optional),
                (Keyword::Mandatory, Often::Optional),
                (Keyword::Must, Often::Any),
            ],
            COND,
            NOTE,
        ],
    ),
    (
        Keyword::LeafList,
        Form::Identifier,
        &[
            &[
                (Keyword::Type, Often::One),
                (Keyword::Units, Often::Optional),
                (Keyword::Default, Often::Any),
                (Keyword::Config, Often::Optional),
                (Keyword::MinElements, Often::Optional),
                (Keyword::MaxElements, Often::Optional),
                (Keyword::OrderedBy, Often::Optional),
                (Keyword::Must, Often::Any),
            ],
            COND,
            NOTE,
        ],
    ),
    (
        Keyword::List,
        Form::Identifier,
        &[
            &[
                (Keyword::Key, Often::Optional),
                (Keyword::Unique, Often::Any),
                (Keyword::Config, Often::Optional),
                (Keyword::MinElements, Often::Optional),
                (Keyword::MaxElements, Often::Optional),
                (Keyword::OrderedBy, Often::Optional),
                (Keyword::Must, Often::Any),
                (Keyword::Typedef, Often::Any),
                (Keyword::Grouping, Often::Any),
            ],
            COND,
            NOTE,
            DATA,
        ],
    ),
    (
        Keyword::Choice,
        Form::Identifier,
        &[
            &[
                (Keyword::Case, Often::Any),
                (Keyword::Container, Often::Any),
                (Keyword::Leaf, Often::Any),
                (Keyword::LeafList, Often::Any),
                (Keyword::List, Often::Any),
                (Keyword::Choice, Often::Any),
                (Keyword::Default, Often::Optional),
                (Keyword::Config, Often::Optional),
                (Keyword::Mandatory, Often::Optional),
            ],
            COND,
            NOTE,
        ],
    ),
    (Keyword::Case, Form::Identifier, &[COND, NOTE, DATA]),
    (
        Keyword::Grouping,
        Form::Identifier,
        &[
            &[
                (Keyword::Typedef, Often::Any),
                (Keyword::Grouping, Often::Any),
            ],
            NOTE,
            DATA,
        ],
    ),
    (Keyword::Uses, Form::Name, &[COND, NOTE]),
    (
        Keyword::Augment,
        Form::SchemaPath,
        &[&[(Keyword::Case, Often::Any)], COND, NOTE, DATA],
    ),
    (
        Keyword::Rpc,
        Form::Identifier,
        &[
            &[
                (Keyword::Typedef, Often::Any),
                (Keyword::Grouping, Often::Any),
                (Keyword::Input, Often::Optional),
                (Keyword::Output, Often::Optional),
                (Keyword::IfFeature, Often::Any),
            ],
            NOTE,
        ],
    ),
    (
        Keyword::Input,
        Form::Absent,
        &[
            &[
                (Keyword::Must, Often::Any),
                (Keyword::Typedef, Often::Any),
                (Keyword::Grouping, Often::Any),
            ],
            DATA,
        ],
    ),
    (
        Keyword::Output,
        Form::Absent,
        &[
            &[
                (Keyword::Must, Often::Any),
                (Keyword::Typedef, Often::Any),
                (Keyword::Grouping, Often::Any),
            ],
            DATA,
        ],
    ),
    (
        Keyword::Notification,
        Form::Identifier,
        &[
            &[
                (Keyword::Must, Often::Any),
                (Keyword::Typedef, Often::Any),
                (Keyword::Grouping, Often::Any),
                (Keyword::IfFeature, Often::Any),
            ],
            NOTE,
            DATA,
        ],
    ),
    (
        Keyword::Typedef,
        Form::Identifier,
        &[
            &[
                (Keyword::Type, Often::One),
                (Keyword::Units, Often::Optional),
                (Keyword::Default, Often::Optional),
            ],
            NOTE,
        ],
    ),
    (
        Keyword::Type,
        Form::Name,
        &[&[
            (Keyword::Range, Often::Optional),
            (Keyword::Length, Often::Optional),
            (Keyword::Pattern, Often::Any),
            (Keyword::Enum, Often::Any),
            (Keyword::Bit, Often::Any),
            (Keyword::FractionDigits, Often::Optional),
            (Keyword::Path, Often::Optional),
            (Keyword::RequireInstance, Often::Optional),
            (Keyword::Base, Often::Any),
            (Keyword::Type, Often::Any),
        ]],
    ),
    (Keyword::Range, Form::Text, &[ERR]),
    (Keyword::Length, Form::Text, &[ERR]),
    (Keyword::Must, Form::Text, &[ERR]),
    (
        Keyword::Pattern,
        Form::Text,
        &[&[(Keyword::Modifier, Often::Optional)], ERR],
    ),
    (
        Keyword::When,
        Form::Text,
        &[&[
            (Keyword::Description, Often::Optional),
            (Keyword::Reference, Often::Optional),
        ]],
    ),
    (
        Keyword::Enum,
        Form::Text,
        &[
            &[
                (Keyword::Value, Often::Optional),
                (Keyword::IfFeature, Often::Any),
            ],
            NOTE,
        ],
    ),
    (
        Keyword::Bit,
        Form::Identifier,
        &[
            &[
                (Keyword::Position, Often::Optional),
                (Keyword::IfFeature, Often::Any),
            ],
            NOTE,
        ],
    ),
    (
        Keyword::Identity,
        Form::Identifier,
        &[
            &[
                (Keyword::Base, Often::Any),
                (Keyword::IfFeature, Often::Any),
            ],
            NOTE,
        ],
    ),
    (
        Keyword::Feature,
        Form::Identifier,
        &[&[(Keyword::IfFeature, Often::Any)], NOTE],
    ),
    (Keyword::Extension, Form::Identifier, &[]),
    (Keyword::YangVersion, Form::Version, &[]),
    (Keyword::Config, Form::Truth, &[]),
    (Keyword::Mandatory, Form::Truth, &[]),
    (Keyword::RequireInstance, Form::Truth, &[]),
    (Keyword::MinElements, Form::Count, &[]),
    (Keyword::MaxElements, Form::Limit, &[]),
    (Keyword::Value, Form::Integer, &[]),
    (Keyword::Position, Form::Whole, &[]),
    (Keyword::Modifier, Form::Inversion, &[]),
];

fn find_rule(table: &[Row], keyword: Keyword) -> Option<Rule>
    ensures { option_map spec.rule_view result ≡ spec.rule_among (map spec.row_view table.now) keyword }
{
    for row in table {
        if row.0 == keyword {
            return Some((row.1, row.2));
        }
    }
    None
}

#[tactic(auto, unfolding(crate::specs::Table::rule_at))]
fn rule_at(keyword: Keyword) -> Option<Rule>
    ensures { option_map spec.rule_view result ≡ spec.rule_at keyword }
{
    find_rule(&TABLE, keyword)
}

/// The rule of a keyword, by its spelling. A keyword without a row takes any text and has no substatements.
#[tactic(auto, unfolding(crate::specs::Table::rule_of))]
pub(crate) fn rule_of(word: &str) -> Rule
    ensures { spec.rule_view result ≡ spec.rule_of word.now }
{
    match keyword_of(word) {
        Some(keyword) => match rule_at(keyword) {
            Some(rule) => rule,
            None => (Form::Text, &[]),
        },
        None => (Form::Text, &[]),
    }
}
