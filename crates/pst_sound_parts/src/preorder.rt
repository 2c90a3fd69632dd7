// Whether component instances stand in preorder.
ghost use Rattle.std.specs.Prelude.{◌≡◌, ℕ, ◌≤◌, ◌<◌, length, slice_get, Some, IsTrue, ◌↔◌};
ghost use Rattle.pst_model.specs.declared.model.Part.{Part};
ghost use Rattle.pst_model.specs.Preorder.{LiesUnder, IsParent, IsSubtree, IsInstanceTree};

use pst_model::Part;

// Whether an instance may have that parent: the first none, each other one an earlier one.
fn is_parent(n: usize, parent: Option<u32>) -> bool
    ensures { IsTrue result ↔ IsParent n parent }
{
    match parent {
        Some(parent) => (parent as usize) < n,
        None => n == 0,
    }
}

// Whether each instance has a parent that it may have.
fn have_parents(parts: &[Part]) -> bool
    ensures { IsTrue result ↔ ((n : ℕ) (part : Part) → slice_get parts.now n ≡ Some part → IsParent n part.parent) }
{
    for n in 0..parts.len() {
        if !is_parent(n, parts[n].parent) {
            return false;
        }
    }
    true
}

// Whether an instance is the top one, or stands below it.
fn lies_under(parts: &[Part], top: usize, n: usize) -> bool
    requires parents { (n : ℕ) (part : Part) → slice_get parts.now n ≡ Some part → IsParent n part.parent }
    requires within { n < length parts.now }
    ensures { IsTrue result ↔ LiesUnder parts.now top n }
{
    let mut at = n;
    while at != top {
        let Some(parent) = parts[at].parent else {
            return false;
        };
        at = parent as usize;
    }
    true
}

// Whether an instance stands under the top one exactly where its number is one of these.
fn is_placed(parts: &[Part], top: usize, last: usize, n: usize) -> bool
    requires parents { (n : ℕ) (part : Part) → slice_get parts.now n ≡ Some part → IsParent n part.parent }
    requires within { n < length parts.now }
    ensures { IsTrue result ↔ (LiesUnder parts.now top n ↔ (top ≤ n) × (n ≤ last)) }
{
    if top <= n && n <= last {
        lies_under(parts, top, n)
    } else {
        !lies_under(parts, top, n)
    }
}

// Whether the instances from the top to the last are the top and those below it.
fn is_subtree(parts: &[Part], top: usize, last: usize) -> bool
    requires parents { (n : ℕ) (part : Part) → slice_get parts.now n ≡ Some part → IsParent n part.parent }
    requires within { top < length parts.now }
    ensures { IsTrue result ↔ IsSubtree parts.now top last }
{
    if last >= parts.len() {
        return false;
    }
    for n in 0..parts.len() {
        if !is_placed(parts, top, last, n) {
            return false;
        }
    }
    true
}

// Whether each instance's last one ends its subtree.
fn have_subtrees(parts: &[Part]) -> bool
    requires { (n : ℕ) (part : Part) → slice_get parts.now n ≡ Some part → IsParent n part.parent }
    ensures { IsTrue result ↔ ((n : ℕ) (part : Part) → slice_get parts.now n ≡ Some part → IsSubtree parts.now n part.last) }
{
    for n in 0..parts.len() {
        if !is_subtree(parts, n, parts[n].last as usize) {
            return false;
        }
    }
    true
}

/// Whether the instances stand in preorder.
pub fn is_preorder(parts: &[Part]) -> bool
    ensures { IsTrue result ↔ IsInstanceTree parts.now }
{
    have_parents(parts) && have_subtrees(parts)
}
