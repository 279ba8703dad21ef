//! Worked examples. Each function does nothing; its contract states what the definitions give, and the proof computes it.
ghost use Rattle.std.specs.Prelude.{◌≡◌, [], ◌∷◌, true, false, codes};
ghost use Rattle.sal_shapes.specs.declared.scene.Shape.TheVariants as shape;
ghost use Rattle.sal_shapes.specs.declared.scene.Style.TheVariants as style;
ghost use Rattle.sal_shapes.specs.Labels.{cut, first_word, label_text, path_end, path_last, shown};
ghost use Rattle.sal_shapes.specs.Shapes.{size, spot};
ghost use Rattle.sal_shapes.specs.Svg.{escaped, shape_text};

/// Markup characters are written as entities, and characters that XML does not allow are replaced.
pub fn texts_are_escaped()
    ensures marks { escaped (codes "<a & b>") ≡ codes "&lt;a &amp; b&gt;" }
    ensures control { escaped (97 ∷ 10 ∷ 0 ∷ []) ≡ 97 ∷ 32 ∷ 32 ∷ [] }
    ensures no_character { escaped (239 ∷ 191 ∷ 191 ∷ []) ≡ 239 ∷ 191 ∷ 189 ∷ [] }
    ensures other { escaped (239 ∷ 191 ∷ 189 ∷ []) ≡ 239 ∷ 191 ∷ 189 ∷ [] }
{}

/// A label is cut where no name is cut, and a path at its beginning.
pub fn labels_are_short()
    ensures whole { shown 8 (codes "pump: ok") ≡ codes "pump: ok" }
    ensures name { cut 6 (codes "a: bcde") ≡ codes "a: .." }
    ensures number { cut 4 (codes "a 1") ≡ codes "a 1" }
    ensures character { cut 1 (195 ∷ 164 ∷ []) ≡ codes ".." }
    ensures steps { path_end 7 false 0 (codes "/a/b/c['/']") (codes "/b/c['/']") ≡ codes "/c['/']" }
    ensures module { path_end 4 false 0 (codes "/a:b/c") (codes "/a:b/c") ≡ codes "b/c" }
    ensures last { path_end 1 false 0 (codes "/a/bc") (codes "/a/bc") ≡ codes "/bc" }
{}

/// The label of a step that is done is its text; of another one its word and its reply, with a path at the end.
pub fn labels_say_what_happened()
    ensures done { label_text true (codes "cancel 0") (codes "ok") ≡ codes "cancel 0" }
    ensures told { first_word (codes "pump 1") ≡ codes "pump" }
    ensures path { path_last (codes "a \"/b\" c") ≡ codes "a c \"/b\"" }
{}

/// Shapes as text.
pub fn shapes_are_elements()
    ensures line { shape_text (shape.Line style.Clash (spot 1 2) (spot 5 4) (spot 30 4)) ≡ codes "<polyline class='clash' points='1,2 5,4 30,4 '/>\n" }
    ensures area { shape_text (shape.Area style.Bar (spot 1 2) (size 4 50)) ≡ codes "<rect class='bar' x='1' y='2' width='4' height='50'/>\n" }
    ensures point { shape_text (shape.Point style.Commit (spot 1 2)) ≡ codes "<circle class='commit' cx='1' cy='2' r='4'/>\n" }
    ensures words { shape_text (shape.Words style.Place (spot 1 2) (codes "a") (codes "<b>")) ≡ codes "<text class='place' x='1' y='2'><title>&lt;b&gt;</title>a</text>\n" }
{}
