//! Laws of paths. Each function promises a law and does nothing.
ghost use Rattle.std.specs.Prelude.{◌≡◌, true, false, take, length, Some, ◌≢◌, ◌↔◌, List, [], ℕ};
ghost use Rattle.std.specs.Ordering.{is_gt};
ghost use Rattle.std.specs.Cmp.{IsTotalOrder};
ghost use Rattle.std.specs.FinMap.{IsAntisymmetric};
ghost use Rattle.cg_cgroup.specs.Paths.{Names, IsPath, path_cmp, same_path, inside, common, path_text, path_at, names_of};

/// Inside is an order: each list is inside itself, what is inside something inside is, and two lists inside each other are the same.
/// A list is inside another exactly where it is that one's first names.
pub fn inside_is_an_order()
    ensures reflexive { (p : Names) → inside p p ≡ true }
    ensures transitive { (p q r : Names) → inside p q ≡ true → inside q r ≡ true → inside p r ≡ true }
    ensures antisymmetric { (p q : Names) → inside p q ≡ true → inside q p ≡ true → p ≡ q }
    ensures first_names { (p q : Names) → (inside p q ≡ true) ↔ (p ≡ take (length p) q) }
{}

/// The common names are the longest list that is a prefix of both, and the only one.
pub fn common_is_longest()
    ensures first { (p q : Names) → inside (common p q) p ≡ true }
    ensures second { (p q : Names) → inside (common p q) q ≡ true }
    ensures longest { (r p q : Names) → inside r p ≡ true → inside r q ≡ true → inside r (common p q) ≡ true }
    ensures taken { (p q : Names) → common p q ≡ take (length (common p q)) q }
    ensures only { (c p q : Names) → inside c p ≡ true → inside c q ≡ true
        → ((r : Names) → inside r p ≡ true → inside r q ≡ true → inside r c ≡ true)
        → c ≡ common p q }
{}

/// The order of paths is total, ties equal lists alone, and puts what is inside a path together, directly after it.
pub fn order_is_total()
    ensures total { IsTotalOrder path_cmp }
    ensures antisymmetric { IsAntisymmetric path_cmp }
    ensures same { (p q : Names) → (same_path p q ≡ true) ↔ (p ≡ q) }
    ensures inside_after { (p q : Names) → inside p q ≡ true → is_gt (path_cmp p q) ≡ false }
    ensures inside_together { (p q r : Names) → is_gt (path_cmp p q) ≡ false
        → is_gt (path_cmp q r) ≡ false → inside p r ≡ true → inside p q ≡ true }
{}

/// Two paths have two texts, a text is that of one path at most, and the first names of a path are a path.
pub fn texts_tell_paths()
    ensures injective { (p q : Names) → IsPath p → IsPath q → path_text p ≡ path_text q → p ≡ q }
    ensures found { (p : Names) → IsPath p → path_at (path_text p) ≡ Some p }
    ensures spelled { (text : List ℕ) (p : Names) → path_at text ≡ Some p
        → IsPath p × (path_text p ≡ text) }
    ensures names { (p : Names) → IsPath p → p ≢ [] → names_of (path_text p) ≡ p }
    ensures prefixes { (p : Names) (len : ℕ) → IsPath p → IsPath (take len p) }
{}
