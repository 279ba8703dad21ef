//! Examples, computed from the definitions: each clause is a text and its statement or fault.
#![tactic(auto, unfolding(crate::specs::Words::word_len, crate::specs::Words::is_keyword, crate::specs::Quoted::last_columns, crate::specs::Quoted::unescape, crate::specs::Quoted::without_indent, crate::specs::Quoted::join_lines, crate::specs::Quoted::content, crate::specs::Text::line_comment, crate::specs::Text::block_comment, crate::specs::Text::separators, crate::specs::Text::within, crate::specs::Text::single, crate::specs::Text::double, crate::specs::Text::quoted, crate::specs::Text::joined, crate::specs::Text::argument, crate::specs::Text::header, crate::specs::Text::statements, crate::specs::Text::statement, crate::specs::Text::read))]

ghost use Rattle.std.specs.Prelude.{◌≡◌, codes, [], ◌∷◌, Ok, Err};
ghost use Rattle.sal_stmt.specs.Text.{read};
ghost use Rattle.sal_stmt.specs.Examples as example;

use crate::fault::StmtFault;

/// The examples as clauses. A call does nothing.
pub fn examples()
    ensures trimmed { read (codes example.trimmed) ≡ Ok (example.plain "x" 2 "a\nb" []) }
    ensures kept { read (codes example.kept) ≡ Ok (example.plain "x" 2 "a\n  b" []) }
    ensures joined { read (codes "x \"a\" + 'b';") ≡ Ok (example.plain "x" 0 "ab" []) }
    ensures single { read (codes "x 'a\\n';") ≡ Ok (example.plain "x" 0 "a\\n" []) }
    ensures block { read (codes "a b{p:c /**/ d;}//") ≡ Ok (example.plain "a" 0 "b" (example.plain "p:c" 4 "d" [] ∷ [])) }
    ensures bad_token { read (codes "a b c;") ≡ Err (StmtFault.BadToken 4) }
    ensures bad_escape { read (codes "x \"a\\d\";") ≡ Err (StmtFault.BadEscape 4) }
    ensures empty { read (codes "") ≡ Err (StmtFault.BadToken 0) }
    ensures unclosed { read (codes "a{b{c;}") ≡ Err (StmtFault.Unclosed 1) }
    ensures text_after { read (codes "a; b;") ≡ Err (StmtFault.TextAfter 3) }
{}
