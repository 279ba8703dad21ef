//! Examples, computed from the definitions.
ghost use Rattle.std.specs.Prelude.{◌≡◌, Some, true, false, codes, [], ◌∷◌};
ghost use Rattle.sal_restrict.specs.declared.yang_type.YangType.TheOpen.{YangType-F};
ghost use Rattle.sal_module.specs.Examples.{plain, found};
ghost use Rattle.sal_restrict.specs.declared.yang_type.YangType.{roll-YangType};
ghost use Rattle.sal_typedefs.specs.Examples as example;
ghost use Rattle.sal_typedefs.specs.Patterns.{is_malformed};

use sal_module::Cause;

/// Faults by the definitions. A call does nothing: its clauses are the laws.
pub fn faults()
    ensures unknown { example.name_fault (example.with_leaf [] "nope" []) 32 ≡ example.unknown 32 }
    ensures prefix { example.name_fault (example.with_leaf [] "p:string" []) 32 ≡ example.unknown 32 }
    ensures wider { example.leaf_fault (example.port ∷ []) "p:port" (plain "range" 34 "0..5" [] ∷ []) ≡ example.bad 34 }
    ensures circle { example.name_fault (example.typedef 20 "a" (example.type_at 22 "b" []) ∷ example.typedef 25 "b" (example.type_at 27 "a" []) ∷ []) 22 ≡ Some (found Cause.NameCycle 0 22) }
    ensures lacking { example.leaf_fault (example.letters ∷ []) "letter" (example.enum 34 "z" ∷ []) ≡ example.bad 34 }
    ensures twice { example.leaf_fault [] "enumeration" (example.enum 34 "x" ∷ example.enum 36 "x" ∷ []) ≡ example.bad 36 }
    ensures absent { example.leaf_fault [] "decimal64" (plain "range" 34 "1" [] ∷ []) ≡ example.bad 32 }
    ensures kind { example.leaf_fault [] "string" (plain "range" 34 "1" [] ∷ []) ≡ example.bad 34 }
    ensures path { example.name_fault (example.with_leaf [] "leafref" (plain "path" 34 "/q:a[b]/c" [] ∷ [])) 32 ≡ example.unknown 32 }
{}

/// Types and patterns by the definitions. A call does nothing: its clauses are the laws.
pub fn meanings()
    ensures narrowed { example.leaf_meaning (example.port ∷ []) "port" (plain "range" 34 "max" [] ∷ []) ≡ Some (roll-YangType (YangType-F.Int 16 false (example.upto 4096 4096 ∷ []))) }
    ensures enumeration { example.leaf_meaning [] "enumeration" (example.enum 34 "x" ∷ example.enum 36 "y" ∷ []) ≡ Some (roll-YangType (YangType-F.Enum (codes "x" ∷ codes "y" ∷ []) (0 ∷ 1 ∷ []))) }
    ensures subset { example.leaf_meaning (example.letters ∷ []) "letter" (example.enum 34 "y" ∷ []) ≡ Some (roll-YangType (YangType-F.Enum (codes "y" ∷ []) (1 ∷ []))) }
    ensures bits { example.leaf_meaning [] "bits" (plain "bit" 34 "a" (plain "position" 36 "5" [] ∷ []) ∷ plain "bit" 38 "b" [] ∷ []) ≡ Some (roll-YangType (YangType-F.Bits (codes "a" ∷ codes "b" ∷ []) (5 ∷ 6 ∷ []))) }
    ensures flat { example.leaf_meaning [] "union" (example.type_at 34 "union" (example.type_at 36 "boolean" [] ∷ example.type_at 38 "empty" [] ∷ []) ∷ example.type_at 40 "boolean" [] ∷ []) ≡ Some (roll-YangType (YangType-F.Union (example.boolean ∷ example.empty ∷ example.boolean ∷ []))) }
    ensures open { is_malformed (codes "(") ≡ true }
    ensures joined { is_malformed (codes "a)|(?:b") ≡ false }
{}
