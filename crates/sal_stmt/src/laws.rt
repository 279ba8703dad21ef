//! Laws of the definitions: the grammar of statements and the reader agree. Each function does nothing; its
//! contract is the law.
ghost use Rattle.std.specs.Prelude.{◌≡◌, codes, [], ◌∷◌};
ghost use Rattle.sal_stmt.specs.declared.stmt.Stmt.{Stmt as Statement};
ghost use Rattle.sal_stmt.specs.Spelling.{Spells, ReadIsSpelled, SpelledIsRead, SpelledOnce};
ghost use Rattle.sal_stmt.specs.Examples as example;

/// If a text is read as a statement, the grammar derives that statement from it.
pub fn what_is_read_is_spelled()
    ensures { ReadIsSpelled }
{}

/// If the grammar derives a statement from a text, the text is read as that statement.
pub fn what_is_spelled_is_read()
    ensures { SpelledIsRead }
{}

/// A text spells at most one statement, with one argument for each keyword and one place for each statement.
pub fn a_text_spells_one_statement()
    ensures { SpelledOnce }
{}

/// Texts from which the grammar derives a statement, and texts from which it derives none.
pub fn spelling_examples()
    ensures joined { Spells (codes "x\"a\"+'b';") (example.plain "x" 0 "ab" []) }
    ensures gaps { Spells (codes "a/*;*/b//;\n;") (example.plain "a" 0 "b" []) }
    ensures block { Spells (codes " a b {p:c d;}") (example.plain "a" 1 "b" (example.plain "p:c" 6 "d" [] ∷ [])) }
    ensures two_words { (stmt : Statement) → Spells (codes "a b c;") stmt → ⊥ }
    ensures open_block { (stmt : Statement) → Spells (codes "a{b;") stmt → ⊥ }
{}
