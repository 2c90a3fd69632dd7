//! Whether a scenario is as those are that are read whole.
ghost use Rattle.std.specs.Prelude.{◌≡◌, ◌≢◌, ◌↔◌, ◌⊎◌, ◌≤◌, ◌<◌, ◌+◌, ◌^◌, ℕ, length, slice_get, Some, None, IsTrue, IfSome};
ghost use Rattle.pst_scen.specs.Flows.{IsAct};
ghost use Rattle.pst_scen.specs.Tree.{StandsUnder};
ghost use Rattle.pst_scen.specs.Laws.{IsPreorder, HasOneLeafEach};
ghost use Rattle.pst_scen.specs.Scenarios.{AreInPreorder, HasLeavesFirst, IsSmall};
ghost use Rattle.pst_scen.specs.declared.tree.Node.{Node};
ghost use Rattle.pst_order.specs.Built.{IsBuilt};
ghost use Rattle.pst_tests_scenarios.specs.Checked.{IsParentEarlier, IsNextNode, IsNextLeaf, AreLeavesTo, AreLeavesIn, AreInferred, IsLinkIn, HasOutputAt, HasOutput, IsStateLink, IsReferenceLinked, AreReferencesLinked, AreActsLinked, AreRivals, HasNoRivalIn, HasNoRival, HaveNoRivals, HasNoRivals};

use pst_scen::{Act, Fill, Filled, Flow, Link, Node, Scenario};

fn is_earlier(parent: Option<u32>, n: usize) -> bool
    ensures { IsTrue result → IsParentEarlier n parent }
{
    match parent {
        Some(p) => (p as usize) < n,
        None => true,
    }
}

fn has_earlier_parents(nodes: &[Node]) -> bool
    ensures { IsTrue result → IsPreorder nodes.now }
{
    for n in 0..nodes.len() {
        if !is_earlier(nodes[n].parent, n) {
            return false;
        }
    }
    true
}

fn stands_over(nodes: &[Node], top: usize, n: usize) -> bool
    requires preorder { IsPreorder nodes.now }
    requires within { n < length nodes.now }
    ensures { IsTrue result → StandsUnder nodes.now top n }
{
    let mut at = n;
    'parents: while at != top {
        let Some(parent) = nodes[at].parent else {
            return false;
        };
        at = parent as usize;
    }
    true
}

/// Whether the node behind that one stands directly in it, or in one over it.
fn is_next(nodes: &[Node], n: usize) -> bool
    requires preorder { IsPreorder nodes.now }
    requires within { n + 1 < length nodes.now }
    ensures { IsTrue result → IsNextNode nodes.now n }
{
    let Some(parent) = nodes[n + 1].parent else {
        return false;
    };
    stands_over(nodes, parent as usize, n)
}

fn is_in_preorder(nodes: &[Node]) -> bool
    requires { IsPreorder nodes.now }
    ensures { IsTrue result → (n : ℕ) → n + 1 < length nodes.now → IsNextNode nodes.now n }
{
    for n in 0..nodes.len() {
        if n + 1 < nodes.len() {
            if !is_next(nodes, n) {
                return false;
            }
        }
    }
    true
}

fn is_node(node: Option<u32>, n: usize) -> bool
    ensures { IsTrue result → node ≡ Some n }
{
    match node {
        Some(m) => m as usize == n,
        None => false,
    }
}

fn is_inferred(act: &Act) -> bool
    ensures { IsTrue result → act.now.node ≡ None }
{
    act.node.is_none()
}

/// The number of leaves up to this node, where so many stood before it.
fn next_leaf(fill: &Fill, acts: &[Act], n: usize, k: usize) -> Option<usize>
    requires { k ≤ length acts.now }
    ensures { IfSome result (IsNextLeaf fill.now acts.now n k) }
{
    let Fill::Leaf { act } = fill else {
        return Some(k);
    };
    if *act as usize != k {
        return None;
    }
    if k >= acts.len() {
        return None;
    }
    if !is_node(acts[k].node, n) {
        return None;
    }
    Some(k + 1)
}

/// The number of leaves, where their actions come first and in their order.
fn count_leaves(nodes: &[Node], acts: &[Act]) -> Option<usize>
    ensures { IfSome result (λ k. AreLeavesTo nodes.now acts.now (length nodes.now) k) }
{
    let mut count = 0;
    for n in 0..nodes.len() {
        let Some(k) = next_leaf(&nodes[n].fill, acts, n, count) else {
            return None;
        };
        count = k;
    }
    Some(count)
}

fn are_inferred(acts: &[Act], first: usize) -> bool
    ensures { IsTrue result → AreInferred acts.now first }
{
    for a in first..acts.len() {
        if !is_inferred(&acts[a]) {
            return false;
        }
    }
    true
}

fn act_at(scenario: &Scenario, a: u32) -> &Act
    requires { a < length scenario.now.actions }
    ensures { IsAct scenario.now a result.now }
{
    &scenario.actions.as_slice()[a as usize]
}

fn is_flow(one: Flow, other: Flow) -> bool
    ensures { IsTrue result ↔ one ≡ other }
{
    one == other
}

fn is_link(one: Link, other: Link) -> bool
    ensures { IsTrue result ↔ one ≡ other }
{
    one == other
}

fn is_state(flow: Flow) -> bool
    ensures { IsTrue result ↔ (flow ≡ Flow.StateIn) ⊎ (flow ≡ Flow.StateOut) }
{
    match flow {
        Flow::StateIn => true,
        Flow::StateOut => true,
        _ => false,
    }
}

/// Whether the link leads to another action that there is, if it leads to one.
fn is_link_in(link: Link, a: u32, count: usize) -> bool
    ensures { IsTrue result → IsLinkIn a count link }
{
    match link {
        Link::Act { act, .. } => (act as usize) < count && act != a,
        _ => true,
    }
}

fn is_output(act: &Act, reference: usize, pool: u32) -> bool
    ensures { IsTrue result → HasOutputAt act.now reference pool }
{
    let references = act.references.as_slice();
    if reference >= references.len() {
        return false;
    }
    if references[reference].pool != pool {
        return false;
    }
    is_flow(references[reference].flow, Flow::StateOut)
}

fn has_output(scenario: &Scenario, act: u32, reference: u32, pool: u32) -> bool
    ensures { IsTrue result → HasOutput scenario.now act reference pool }
{
    if act as usize >= scenario.actions.as_slice().len() {
        return false;
    }
    is_output(act_at(scenario, act), reference as usize, pool)
}

/// Whether the link of a reference to the state pool leads to an output to it, if to an action.
fn is_state_link(scenario: &Scenario, link: Link, pool: u32) -> bool
    ensures { IsTrue result → IsStateLink scenario.now link pool }
{
    match link {
        Link::Nothing => false,
        Link::Initial => true,
        Link::Act { act, reference } => has_output(scenario, act, reference, pool),
    }
}

fn is_reference_linked(scenario: &Scenario, a: u32, filled: &Filled) -> bool
    ensures { IsTrue result → IsReferenceLinked scenario.now a filled.now }
{
    if !is_link_in(filled.link, a, scenario.actions.as_slice().len()) {
        return false;
    }
    if !is_state(filled.flow) {
        return true;
    }
    is_state_link(scenario, filled.link, filled.pool)
}

fn are_references_linked(scenario: &Scenario, a: u32, references: &[Filled]) -> bool
    ensures { IsTrue result → AreReferencesLinked scenario.now a references.now }
{
    for r in 0..references.len() {
        if !is_reference_linked(scenario, a, &references[r]) {
            return false;
        }
    }
    true
}

fn are_acts_linked(scenario: &Scenario, count: u32) -> bool
    requires { count ≡ length scenario.now.actions }
    ensures { IsTrue result → AreActsLinked scenario.now }
{
    for a in 0..count {
        if !are_references_linked(scenario, a, act_at(scenario, a).references.as_slice()) {
            return false;
        }
    }
    true
}

/// Whether both are outputs to one state pool with the same previous writer.
fn are_rivals(one: &Filled, other: &Filled) -> bool
    ensures { IsTrue result ↔ AreRivals one.now other.now }
{
    if !is_flow(one.flow, Flow::StateOut) {
        return false;
    }
    if !is_flow(other.flow, Flow::StateOut) {
        return false;
    }
    if one.pool != other.pool {
        return false;
    }
    is_link(one.link, other.link)
}

/// Whether none of the references but the one's own place is a rival of it.
fn has_no_rival_in(one: &Filled, own: Option<usize>, references: &[Filled]) -> bool
    ensures { IsTrue result → HasNoRivalIn one.now own references.now }
{
    for q in 0..references.len() {
        if own != Some(q) {
            if are_rivals(one, &references[q]) {
                return false;
            }
        }
    }
    true
}

fn own_place(a: u32, b: u32, r: usize) -> Option<usize>
    ensures { (q : ℕ) → result ≡ Some q → (a ≡ b) × (r ≡ q) }
{
    if a == b { Some(r) } else { None }
}

fn has_no_rival(scenario: &Scenario, count: u32, a: u32, r: usize, one: &Filled) -> bool
    requires { count ≡ length scenario.now.actions }
    ensures { IsTrue result → HasNoRival scenario.now a r one.now }
{
    for b in 0..count {
        if !has_no_rival_in(
            one,
            own_place(a, b, r),
            act_at(scenario, b).references.as_slice(),
        ) {
            return false;
        }
    }
    true
}

fn have_no_rivals(scenario: &Scenario, count: u32, a: u32, references: &[Filled]) -> bool
    requires { count ≡ length scenario.now.actions }
    ensures { IsTrue result → HaveNoRivals scenario.now a references.now }
{
    for r in 0..references.len() {
        if !has_no_rival(scenario, count, a, r, &references[r]) {
            return false;
        }
    }
    true
}

fn has_no_rivals(scenario: &Scenario, count: u32) -> bool
    requires { count ≡ length scenario.now.actions }
    ensures { IsTrue result → HasNoRivals scenario.now }
{
    for a in 0..count {
        if !have_no_rivals(
            scenario,
            count,
            a,
            act_at(scenario, a).references.as_slice(),
        ) {
            return false;
        }
    }
    true
}

fn is_rooted(nodes: &[Node]) -> bool
    ensures { IsTrue result → (node : Node) → slice_get nodes.now 0 ≡ Some node → node.parent ≡ None }
{
    if nodes.is_empty() {
        return true;
    }
    nodes[0].parent.is_none()
}

fn has_tree(nodes: &[Node]) -> bool
    ensures { IsTrue result → IsPreorder nodes.now × AreInPreorder nodes.now }
{
    if !has_earlier_parents(nodes) {
        return false;
    }
    if !is_rooted(nodes) {
        return false;
    }
    is_in_preorder(nodes)
}

fn has_leaves(scenario: &Scenario) -> bool
    ensures { IsTrue result → HasLeavesFirst scenario.now × HasOneLeafEach scenario.now.nodes × AreLeavesIn scenario.now }
{
    let acts = scenario.actions.as_slice();
    let Some(count) = count_leaves(scenario.nodes.as_slice(), acts) else {
        return false;
    };
    if acts.len() - count != scenario.level as usize {
        return false;
    }
    are_inferred(acts, count)
}

fn is_small(scenario: &Scenario) -> bool
    ensures { IsTrue result → IsSmall scenario.now }
{
    if scenario.actions.as_slice().len() >= 1 << 31 {
        return false;
    }
    scenario.nodes.as_slice().len() < 1 << 31
}

fn has_links(scenario: &Scenario) -> bool
    requires { IsSmall scenario.now }
    ensures { IsTrue result → AreActsLinked scenario.now × HasNoRivals scenario.now }
{
    let count = scenario.actions.as_slice().len() as u32;
    if !are_acts_linked(scenario, count) {
        return false;
    }
    has_no_rivals(scenario, count)
}

/// Whether the scenario is as those are that are read whole.
pub fn is_built(scenario: &Scenario) -> bool
    ensures { IsTrue result → IsBuilt scenario.now }
{
    if !is_small(scenario) {
        return false;
    }
    if !has_tree(scenario.nodes.as_slice()) {
        return false;
    }
    if !has_leaves(scenario) {
        return false;
    }
    has_links(scenario)
}
