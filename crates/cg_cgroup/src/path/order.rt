//! The order of paths, and which of two lies inside the other.
ghost use Rattle.std.specs.Prelude.{◌≡◌, ◌≤◌, length, take};
ghost use Rattle.cg_cgroup.specs.Paths.{path_cmp, same_path, inside, common};

use crate::path::Path;
use std::cmp::Ordering;

impl Path {
    /// Whether the first `len` names of two paths are the same.
    fn shares(&self, other: &Path, len: usize) -> bool
        requires own { len ≤ length self.now }
        requires others { len ≤ length other.now }
        ensures { result ≡ same_path (take len self.now) (take len other.now) }
    {
        self.front(len) == other.front(len)
    }

    /// How many first names the path of the first `own` names has in common with that of the first `len` names of `other`.
    ///
    /// It compares texts and no names, and halves the places that are left each time: a deep path costs little more than
    /// a shallow one.
    fn shared_len(&self, own: usize, other: &Path, len: usize) -> usize
        requires own { own ≤ length self.now }
        requires others { len ≤ length other.now }
        ensures { result ≡ length (common (take own self.now) (take len other.now)) }
    {
        let mut high = own.min(len);
        if self.shares(other, high) {
            return high;
        }
        let mut low = 0;
        while low < high {
            let middle = high - (high - low) / 2;
            if self.shares(other, middle) {
                low = middle;
            } else {
                high = middle - 1;
            }
        }
        low
    }

    /// The order of the path of the first `own` names and that of the first `len` names of `other`.
    pub fn cmp_prefixes(&self, own: usize, other: &Path, len: usize) -> Ordering
        requires own { own ≤ length self.now }
        requires others { len ≤ length other.now }
        ensures { result ≡ path_cmp (take own self.now) (take len other.now) }
    {
        let shared = self.shared_len(own, other, len);
        if shared == own || shared == len {
            return own.cmp(&len);
        }
        self.name(shared).cmp(other.name(shared))
    }

    /// The order of this path and that of the first `len` names of `other`.
    pub fn cmp_prefix(&self, other: &Path, len: usize) -> Ordering
        requires { len ≤ length other.now }
        ensures { result ≡ path_cmp self.now (take len other.now) }
    {
        self.cmp_prefixes(self.depth(), other, len)
    }

    /// Whether `other` is inside the path of the first `len` names: that path itself or below it.
    pub fn holds(&self, len: usize, other: &Path) -> bool
        requires { len ≤ length self.now }
        ensures { result ≡ inside (take len self.now) other.now }
    {
        if other.depth() < len {
            return false;
        }
        self.shares(other, len)
    }

    /// Whether `other` is inside this path: the path itself or below it.
    pub fn is_prefix_of(&self, other: &Path) -> bool
        ensures { result ≡ inside self.now other.now }
    {
        self.holds(self.depth(), other)
    }

    /// How many first names two paths have in common.
    pub fn common_len(&self, other: &Path) -> usize
        ensures { result ≡ length (common self.now other.now) }
    {
        self.shared_len(self.depth(), other, other.depth())
    }
}

impl PartialEq for Path {
    ghost use Rattle.cg_cgroup.specs.Paths.{same_path};
    ghost use Rattle.std.specs.Cmp.{partial_equiv_from_equiv};
    ghost use Rattle.std.proofs.lemmas.Cmp.{lists_equiv, nat_list_eq_equiv};

    ghost eq = { same_path };

    ghost laws = { partial_equiv_from_equiv (lists_equiv nat_list_eq_equiv) };

    fn eq(&self, other: &Path) -> bool {
        self.text == other.text
    }
}

impl Eq for Path {
    ghost use Rattle.std.proofs.lemmas.Cmp.{lists_equiv, nat_list_eq_equiv};

    ghost laws = { lists_equiv nat_list_eq_equiv };
}

impl PartialOrd for Path {
    ghost use Rattle.std.specs.Prelude.{Some};
    ghost use Rattle.std.specs.Cmp.{partial_order_from_own_ties, partial_order_from_total};
    ghost use Rattle.std.specs.Cmp.Lexicographic.{slice_cmp, lists_ties, texts_ties};
    ghost use Rattle.std.specs.Ordering.{nat_cmp};
    ghost use Rattle.std.proofs.lemmas.Cmp.{lists_total, nat_list_cmp_total};

    ghost partial_cmp = { λ p q. Some (path_cmp p q) };

    ghost laws = { partial_order_from_own_ties (partial_order_from_total (lists_total nat_list_cmp_total)) (lists_ties (slice_cmp nat_cmp) texts_ties) };

    fn partial_cmp(&self, other: &Path) -> Option<Ordering> {
        Some(self.cmp(other))
    }
}

impl Ord for Path {
    ghost use Rattle.std.specs.Cmp.Lexicographic.{slice_cmp, lists_ties, texts_ties};
    ghost use Rattle.std.specs.Ordering.{nat_cmp};
    ghost use Rattle.std.proofs.Common.{refl};
    ghost use Rattle.std.proofs.lemmas.Cmp.{lists_total, nat_list_cmp_total};

    ghost cmp = { path_cmp };

    ghost total = { lists_total nat_list_cmp_total };

    ghost matches_partial_cmp = { λ p q. refl };

    ghost matches_eq = { lists_ties (slice_cmp nat_cmp) texts_ties };

    fn cmp(&self, other: &Path) -> Ordering {
        self.cmp_prefix(other, other.depth())
    }
}
