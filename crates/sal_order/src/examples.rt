//! Worked examples of the definitions. Each function does nothing; its contract states what the definitions give for some texts, and the proof
//! computes it.
ghost use Rattle.std.specs.Prelude.{◌≡◌, [], ◌∷◌, ◌++◌, None, Some, codes};
ghost use Rattle.sal_order.specs.Differences.{difference};
ghost use Rattle.sal_order.specs.FirstLines.{line_of, told_order};

/// Texts differ in the line after those that both have in common; the end of a text counts as a difference.
pub fn texts_differ()
    ensures same { difference 0 (codes "a" ++ 10 ∷ codes "b") (codes "a" ++ 10 ∷ codes "b") ≡ None }
    ensures first { difference 0 (codes "a") (codes "b") ≡ Some 0 }
    ensures second { difference 0 (codes "a" ++ 10 ∷ codes "b") (codes "a" ++ 10 ∷ codes "c") ≡ Some 1 }
    ensures shorter { difference 0 (codes "a" ++ 10 ∷ []) (codes "a" ++ 10 ∷ codes "b") ≡ Some 1 }
    ensures unended { difference 0 (codes "a") (codes "a" ++ 10 ∷ []) ≡ Some 0 }
    ensures empty { difference 0 [] (codes "a" ++ 10 ∷ []) ≡ Some 0 }
{}

/// First lines with an order.
pub fn first_lines_tell()
    ensures two { told_order (codes "order 0 15" ++ 10 ∷ codes "0 0 ok") ≡ Some (0 ∷ 15 ∷ []) }
    ensures none { told_order (codes "order" ++ 10 ∷ codes " 8") ≡ Some [] }
    ensures line { told_order (line_of (7 ∷ [])) ≡ Some (7 ∷ []) }
    ensures greatest { told_order (codes "order 4294967295" ++ 10 ∷ []) ≡ Some (4294967295 ∷ []) }
{}

/// First lines without one: a line without an end, without `order`, with another word, with leading zeros, too many spaces, a number of 33 bits or
/// another byte.
pub fn other_lines_tell_none()
    ensures empty { told_order [] ≡ None }
    ensures unended { told_order (codes "order 7") ≡ None }
    ensures word { told_order (codes "orders" ++ 10 ∷ []) ≡ None }
    ensures zeros { told_order (codes "order 07" ++ 10 ∷ []) ≡ None }
    ensures spaces { told_order (codes "order  7" ++ 10 ∷ []) ≡ None }
    ensures space { told_order (codes "order 7 " ++ 10 ∷ []) ≡ None }
    ensures great { told_order (codes "order 4294967296" ++ 10 ∷ []) ≡ None }
    ensures carriage { told_order (codes "order 7" ++ 13 ∷ 10 ∷ []) ≡ None }
{}
