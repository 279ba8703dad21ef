//! Texts of YANG and the statements that they denote, or their first fault. Each function does nothing: its contract is computed from the
//! definitions of `read_module`.
#![tactic(auto, unfolding(sal_stmt::specs::Words::word_len, sal_stmt::specs::Words::is_keyword, sal_stmt::specs::Quoted::last_columns, sal_stmt::specs::Quoted::unescape, sal_stmt::specs::Quoted::without_indent, sal_stmt::specs::Quoted::join_lines, sal_stmt::specs::Quoted::content, sal_stmt::specs::Text::line_comment, sal_stmt::specs::Text::block_comment, sal_stmt::specs::Text::separators, sal_stmt::specs::Text::within, sal_stmt::specs::Text::single, sal_stmt::specs::Text::double, sal_stmt::specs::Text::quoted, sal_stmt::specs::Text::joined, sal_stmt::specs::Text::argument, sal_stmt::specs::Text::header, sal_stmt::specs::Text::statements, sal_stmt::specs::Text::statement, sal_stmt::specs::Text::read))]

ghost use Rattle.std.specs.Prelude.{◌≡◌, Ok, Err};
ghost use Rattle.sal_stmt.specs.Text.{read};
ghost use Rattle.sal_stmt.specs.declared.fault.StmtFault.TheVariants.{TooDeep};
ghost use Rattle.examples_worked.specs.Read.{AreStatements, AreFaults};
ghost use Rattle.examples_worked.specs.Trees as text;
ghost use Rattle.examples_worked.specs.NoStatements as none;
ghost use Rattle.examples_worked.specs.Blocks.{blocks, tower};

/// Statements with and without arguments and blocks, with separators and comments between their parts, and with unquoted strings.
pub fn texts_are_statements()
    ensures forms { AreStatements text.forms }
    ensures separators { AreStatements text.separators }
    ensures unquoted { AreStatements text.unquoted }
{}

/// Strings in quotes: escapes, strings that are joined, and the lines of a string.
pub fn texts_have_strings()
    ensures strings { AreStatements text.strings }
    ensures lines { AreStatements text.lines }
{}

/// The first fault of a text, with its offset.
pub fn texts_have_faults()
    ensures bad_tokens { AreFaults none.bad_tokens }
    ensures unclosed { AreFaults none.unclosed }
    ensures bad_escapes { AreFaults none.bad_escapes }
    ensures texts_after { AreFaults none.texts_after }
    ensures prefixes { AreFaults none.prefixes }
{}

/// 64 blocks may be open at once.
pub fn blocks_are_64_deep()
    ensures open { read (blocks 64) ≡ Ok (tower 0 63) }
    ensures too_many { read (blocks 65) ≡ Err (TooDeep 129) }
{}
