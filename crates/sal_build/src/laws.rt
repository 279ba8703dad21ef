//! Laws of the definitions: the table of modules is the table of a schema. A call does nothing: its clause is the law.
ghost use Rattle.std.specs.Prelude.{◌≡◌, true, false, codes, [], ◌∷◌, None};
ghost use Rattle.sal_restrict.specs.declared.yang_type.YangType.TheOpen.{YangType-F};
ghost use Rattle.sal_build.specs.Laws.{has_members, is_bounded, is_placed, is_spelled, BitsAreSpelled, CallNamesDiffer, CallsStandAtTheTop, DataNamesDiffer, IdentitiesAreGood, IdentitiesAreStatements, IdentityNamesDiffer, KeysAreInside, KeysAreThere, LeafsAreTyped, ModuleNamesDiffer, ModulesAreNamed, NamesArePlaced, NodesAreNamed, NodesStandRight, NumbersAreThere, TablesAreSmall, TablesAreTables, TypesAreBounded, TypesAreFlat, UnionsHaveMembers, UniquesAreBelow};
ghost use Rattle.sal_stmt.specs.Text.{made};
ghost use Rattle.sal_build.specs.Versions.{VersionsExtend, VersionsAreTables, FirstIsTable, FirstIsBuilt};
ghost use Rattle.sal_build.specs.Readable.{are_readable, has_own_places, is_shallow, ReadIsCounted, ReadIsInOrder, ReadIsReadable};

/// The offsets of the statements of a text of fewer than 2 ^ 32 bytes ascend: each statement's is less than those in its block, and these less
/// than the next one's.
pub fn what_is_read_is_in_order()
    ensures { ReadIsInOrder }
{}

/// Each statement of a text takes a byte or more.
pub fn what_is_read_is_counted()
    ensures { ReadIsCounted }
{}

/// Statements read from texts of fewer than 2 ^ 32 bytes in all are readable: the offsets in one text differ, blocks are nested at most 64 deep, and
/// there are fewer than 2 ^ 32 statements.
pub fn what_is_read_is_readable()
    ensures { ReadIsReadable }
{}

/// The name of each module is an identifier.
pub fn modules_are_named()
    ensures { ModulesAreNamed }
{}

/// Leafs and leaf-lists have a type, and no other node has one.
pub fn leafs_are_typed()
    ensures { LeafsAreTyped }
{}

/// There are fewer than 2 ^ 32 nodes, types and modules.
pub fn tables_are_small()
    ensures { TablesAreSmall }
{}

/// The parent of a node has a smaller number, and its module and its type exist.
pub fn numbers_are_there()
    ensures { NumbersAreThere }
{}

/// Names of modules differ.
pub fn module_names_differ()
    ensures { ModuleNamesDiffer }
{}

/// The name of each identity is an identifier, its module exists, and it is derived from other identities.
pub fn identities_are_good()
    ensures { IdentitiesAreGood }
{}

/// The leafs of a `unique` are leafs below their list, with no list between.
pub fn uniques_are_below()
    ensures { UniquesAreBelow }
{}

/// The keys of a node are leafs that are its children.
pub fn keys_are_inside()
    ensures { KeysAreInside }
{}

/// Names of identities of one module differ.
pub fn identity_names_differ()
    ensures { IdentityNamesDiffer }
{}

/// If the offsets in each module differ, the name of each node is an identifier.
pub fn nodes_are_named()
    ensures { NodesAreNamed }
{}

/// If the offsets in each module differ, exactly the lists have keys: at least one, and no key occurs twice.
pub fn keys_are_there()
    ensures { KeysAreThere }
{}

/// Integers have 8, 16, 32 or 64 bits, and no member of a union is a union.
pub fn types_are_flat()
    ensures { TypesAreFlat }
{}

/// Integers have 8, 16, 32 or 64 bits and decimals 1 to 18 digits, and their ranges fit the bits; the bases of an identityref are identities; no
/// leafref is left, and no member of a union is a union.
pub fn types_are_bounded()
    ensures { TypesAreBounded }
{}

/// The names of an enumeration or of bits differ, and so do their places, one for each name; those of bits are below 64.
pub fn names_are_placed()
    ensures { NamesArePlaced }
{}

/// If the offsets in each module differ, the names of the data nodes below each parent differ, where the children of choices and
/// cases count as the parent's.
pub fn data_names_differ()
    ensures { DataNamesDiffer }
{}

/// If the offsets in each module differ, the names of a module's RPCs differ, and those of its notifications.
pub fn call_names_differ()
    ensures { CallNamesDiffer }
{}

/// RPCs and notifications are at the top.
pub fn calls_stand_at_the_top()
    ensures { CallsStandAtTheTop }
{}

/// If the offsets in each module differ: leafs and leaf-lists have no children, the children of choices are cases, those of RPCs inputs and
/// outputs, and these are nowhere else.
pub fn nodes_stand_right()
    ensures { NodesStandRight }
{}

/// If the offsets in each module differ and blocks are nested at most 64 deep, the names of bits are identifiers.
pub fn bits_are_spelled()
    ensures { BitsAreSpelled }
{}

/// There are at most as many identities as statements.
pub fn identities_are_statements()
    ensures { IdentitiesAreStatements }
{}

/// If the offsets in each module differ and blocks are nested at most 64 deep, unions have members.
pub fn unions_have_members()
    ensures { UnionsHaveMembers }
{}

/// The table of statements that are read from texts is the table of a schema.
pub fn tables_are_tables()
    ensures { TablesAreTables }
{}

/// The next version extends the older one.
pub fn versions_extend()
    ensures { VersionsExtend }
{}

/// The first version has the table of `build`, or its fault; for statements that are read from texts it is the table of a schema.
pub fn first_versions_are_tables()
    ensures table { FirstIsTable }
    ensures built { FirstIsBuilt }
{}

/// For statements that are read from texts the next version has the table of a schema if the older one has.
pub fn versions_are_tables()
    ensures { VersionsAreTables }
{}

/// Types that the tests of the laws accept, and types that they refuse.
pub fn examples_of_types()
    ensures width { is_bounded 0 (YangType-F.Int 8 true []) ≡ true }
    ensures no_width { is_bounded 0 (YangType-F.Int 9 true []) ≡ false }
    ensures digits { is_bounded 0 (YangType-F.Dec 18 []) ≡ true }
    ensures no_digits { is_bounded 0 (YangType-F.Dec 0 []) ≡ false }
    ensures base { is_bounded 2 (YangType-F.Ident (1 ∷ [])) ≡ true }
    ensures no_base { is_bounded 2 (YangType-F.Ident (2 ∷ [])) ≡ false }
    ensures places { is_placed (YangType-F.Enum (codes "up" ∷ codes "down" ∷ []) (0 ∷ 7 ∷ [])) ≡ true }
    ensures one_place { is_placed (YangType-F.Enum (codes "up" ∷ codes "down" ∷ []) (7 ∷ 7 ∷ [])) ≡ false }
    ensures last_bit { is_placed (YangType-F.Bits (codes "a" ∷ []) (63 ∷ [])) ≡ true }
    ensures no_bit { is_placed (YangType-F.Bits (codes "a" ∷ []) (64 ∷ [])) ≡ false }
    ensures spelled { is_spelled (YangType-F.Bits (codes "a-1" ∷ []) (0 ∷ [])) ≡ true }
    ensures not_spelled { is_spelled (YangType-F.Bits (codes "1-a" ∷ []) (0 ∷ [])) ≡ false }
    ensures no_members { has_members (YangType-F.Union []) ≡ false }
{}

/// Trees of statements that a text can have, and trees that no text has.
pub fn examples_of_trees()
    ensures own_places { has_own_places (made 0 (codes "a", None) (made 3 (codes "b", None) [] ∷ [])) ≡ true }
    ensures one_place { has_own_places (made 3 (codes "a", None) (made 3 (codes "b", None) [] ∷ [])) ≡ false }
    ensures a_level { is_shallow 1 (made 0 (codes "a", None) (made 3 (codes "b", None) [] ∷ [])) ≡ true }
    ensures no_level { is_shallow 0 (made 0 (codes "a", None) (made 3 (codes "b", None) [] ∷ [])) ≡ false }
    ensures a_tree { are_readable (made 0 (codes "a", None) (made 3 (codes "b", None) [] ∷ []) ∷ []) ≡ true }
    ensures no_tree { are_readable (made 3 (codes "a", None) (made 3 (codes "b", None) [] ∷ []) ∷ []) ≡ false }
{}
