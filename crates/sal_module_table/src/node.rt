//! The properties that a node has from its statement.
ghost use Rattle.std.specs.Prelude.{◌≡◌, None, codes, is_some, if◌then◌else◌};
ghost use Rattle.std.specs.Option.{option_copied};
ghost use Rattle.sal_stmt.specs.declared.stmt.Stmt.TheViews.{out-Stmt};
ghost use Rattle.sal_module.specs.Keywords as keywords;
ghost use Rattle.sal_module.specs.Keywords.{same};
ghost use Rattle.sal_module_table.specs.Nodes as spec;

use sal_grouping::{Branch, Implied};
use sal_module::{Keyword, Modules, argument_of, first_named, has_named, keyword_of};
use sal_schema::Kind;
use sal_stmt::Stmt;

/// The statement at the offset of a node.
pub(crate) fn stmt_of<'m>(modules: &'m Modules, branch: &Branch) -> Option<&'m Stmt>
    ensures { option_copied result ≡ spec.stmt_of modules.now branch.now }
{
    modules.stmt(branch.source, branch.at)
}

/// The statement of a node that is not implied.
pub(crate) fn own_stmt<'m>(modules: &'m Modules, branch: &Branch) -> Option<&'m Stmt>
    ensures { option_copied result ≡ spec.own_stmt modules.now branch.now }
{
    if branch.implied.is_some() {
        None
    } else {
        stmt_of(modules, branch)
    }
}

/// The same, from the statement at its offset.
pub(crate) fn own_in<'m>(stmt: Option<&'m Stmt>, implied: Option<Implied>) -> Option<&'m Stmt>
    ensures { option_copied result ≡ (if is_some implied then None else option_copied stmt.entry) }
{
    if implied.is_some() { None } else { stmt }
}

fn has(keyword: Keyword, stmt: Option<&Stmt>) -> bool
    ensures { result ≡ spec.has keyword (option_copied stmt.entry) }
{
    match stmt {
        None => false,
        Some(stmt) => has_named(keyword, stmt.subs.items()),
    }
}

fn is_leaf_stmt(stmt: &Stmt) -> bool
    ensures { result ≡ same (out-Stmt stmt.now).keyword (codes "leaf") }
{
    stmt.keyword.as_str() == "leaf"
}

/// The keyword of a statement. Most nodes are leafs: that keyword is tried first.
fn node_keyword(stmt: &Stmt) -> Option<Keyword>
    ensures { result ≡ keywords.keyword_of (out-Stmt stmt.now).keyword }
{
    if is_leaf_stmt(stmt) {
        return Some(Keyword::Leaf);
    }
    keyword_of(stmt.keyword.as_str())
}

fn keyword_in(stmt: Option<&Stmt>) -> Option<Keyword>
    ensures { result ≡ spec.keyword_in (option_copied stmt.entry) }
{
    match stmt {
        None => None,
        Some(stmt) => node_keyword(stmt),
    }
}

fn kind_among(presence: bool, keyword: Option<Keyword>) -> Kind
    ensures { result ≡ spec.kind_among presence keyword }
{
    match keyword {
        None => Kind::Container { presence },
        Some(keyword) => match keyword {
            Keyword::List => Kind::List,
            Keyword::LeafList => Kind::LeafList,
            Keyword::Leaf => Kind::Leaf,
            Keyword::Choice => Kind::Choice,
            Keyword::Case => Kind::Case,
            Keyword::Rpc => Kind::Rpc,
            Keyword::Input => Kind::Input,
            Keyword::Output => Kind::Output,
            Keyword::Notification => Kind::Notification,
            _ => Kind::Container { presence },
        },
    }
}

/// The kind of a node with this statement at its offset.
pub(crate) fn kind_in(stmt: Option<&Stmt>, implied: Option<Implied>) -> Kind
    ensures { result ≡ spec.kind_in (option_copied stmt.entry) implied }
{
    match implied {
        None => kind_among(has(Keyword::Presence, stmt), keyword_in(stmt)),
        Some(Implied::Case) => Kind::Case,
        Some(Implied::Input) => Kind::Input,
        Some(Implied::Output) => Kind::Output,
    }
}

/// The kind of a node: that of its statement, or the implied one.
pub fn kind_of(modules: &Modules, branch: &Branch) -> Kind
    ensures { result ≡ spec.kind_of modules.now branch.now }
{
    kind_in(stmt_of(modules, branch), branch.implied)
}

fn argument_in(stmt: Option<&Stmt>) -> &str
    ensures { result.now ≡ spec.argument_in (option_copied stmt.entry) }
{
    match stmt {
        None => "",
        Some(stmt) => argument_of(stmt),
    }
}

/// The name of a node of this kind, with this statement at its offset.
pub(crate) fn name_in<'m>(kind: Kind, stmt: Option<&'m Stmt>) -> &'m str
    ensures { result.now ≡ spec.name_in kind (spec.argument_in (option_copied stmt.entry)) }
{
    match kind {
        Kind::Input => "input",
        Kind::Output => "output",
        _ => argument_in(stmt),
    }
}

/// The name of a node, without its module.
pub fn name_of<'m>(modules: &'m Modules, branch: &Branch) -> &'m str
    ensures { result.now ≡ spec.name_of modules.now branch.now }
{
    let stmt = stmt_of(modules, branch);
    name_in(kind_in(stmt, branch.implied), stmt)
}

/// Whether it is an RPC or a notification.
pub(crate) fn is_operation(kind: Kind) -> bool
    ensures { result ≡ spec.is_operation kind }
{
    match kind {
        Kind::Rpc => true,
        Kind::Notification => true,
        _ => false,
    }
}

// ---- substatements

/// The argument of the statement of this keyword.
fn stated<'m>(keyword: Keyword, stmt: Option<&'m Stmt>) -> Option<&'m str>
    ensures { option_copied result ≡ spec.stated keyword (option_copied stmt.entry) }
{
    match stmt {
        None => None,
        Some(stmt) => match first_named(keyword, stmt.subs.items()) {
            None => None,
            Some(sub) => Some(argument_of(sub)),
        },
    }
}

/// Whether a text is `true`.
pub(crate) fn is_true(text: &str) -> bool
    ensures { result ≡ spec.is_true text.now }
{
    text == "true"
}

/// The `config` of a statement.
pub(crate) fn own_config(stmt: Option<&Stmt>) -> Option<bool>
    ensures { result ≡ spec.own_config (option_copied stmt.entry) }
{
    match stated(Keyword::Config, stmt) {
        None => None,
        Some(text) => Some(is_true(text)),
    }
}

/// Whether a statement is mandatory.
pub(crate) fn is_mandatory(stmt: Option<&Stmt>) -> bool
    ensures { result ≡ spec.is_mandatory (option_copied stmt.entry) }
{
    match stated(Keyword::Mandatory, stmt) {
        None => false,
        Some(text) => is_true(text),
    }
}

/// The value of digits, or the greatest number of 32 bits if it is greater.
fn count_of(text: &[u8]) -> u32
    ensures { result ≡ spec.count_of text.now }
{
    let mut number: u32 = 0;
    for digit in text {
        number = number
            .saturating_mul(10)
            .saturating_add(u32::from(digit.saturating_sub(b'0')));
    }
    number
}

/// The smallest number of entries that a statement requires.
pub(crate) fn min_elements(stmt: Option<&Stmt>) -> u32
    ensures { result ≡ spec.min_elements (option_copied stmt.entry) }
{
    match stated(Keyword::MinElements, stmt) {
        None => 0,
        Some(text) => count_of(text.as_bytes()),
    }
}

/// The largest number of entries that a statement allows; none if they are unbounded.
pub(crate) fn max_elements(stmt: Option<&Stmt>) -> Option<u32>
    ensures { result ≡ spec.max_elements (option_copied stmt.entry) }
{
    match stated(Keyword::MaxElements, stmt) {
        None => None,
        Some(text) => {
            if text == "unbounded" {
                None
            } else {
                Some(count_of(text.as_bytes()))
            }
        }
    }
}
