//! Which earlier claims a claim is compared with: those of its own action, of the actions that start together with its
//! action, and of other branches of each `parallel` round it.
use pst_base::NoMemory;
use pst_claim_rivals::OpenClaim;
use pst_scen::{Fill, Node, Scenario};
use std::alloc::Global;

/// The claims of a scenario, in rows by which those are found that a claim is compared with.
#[derive(Drop)]
pub struct Finder<'a> {
    nodes: &'a [Node],
    claims: &'a [OpenClaim],
    groups: &'a [u32],
    // For each node how many leaves stand before it: the number of the first action in it.
    firsts: Vec<u32>,
    // For each action its leaf, none for one that was inferred.
    leaves: Vec<Option<u32>>,
    // For each pool its claims.
    pools: Vec<Vec<u32>>,
    // For each pool its locks.
    locks: Vec<Vec<u32>>,
    // For each group its claims; no rows where each action starts alone.
    joined: Vec<Vec<u32>>,
}

// Whether streams join some of the actions with these groups.
fn are_joined(groups: &[u32]) -> bool {
    let mut number = 0u32;
    for group in groups {
        if *group != number {
            return true;
        }
        number = number.saturating_add(1);
    }
    false
}

// For each node how many leaves stand before it.
fn firsts_of(alloc: Global, nodes: &[Node]) -> Result<Vec<u32>, NoMemory> {
    let mut firsts = Vec::new(alloc);
    let mut count = 0u32;
    for node in nodes {
        firsts.push(count)?;
        if let Fill::Leaf { .. } = &node.fill {
            count = count.saturating_add(1);
        }
    }
    Ok(firsts)
}

// Notes the leaf of an action.
fn note_leaf(leaves: &mut [Option<u32>], node: &Node, number: u32) {
    let Fill::Leaf { act } = &node.fill else {
        return;
    };
    let act = *act as usize;
    if act < leaves.len() {
        leaves[act] = Some(number);
    }
}

// For each action its leaf.
fn leaves_of(alloc: Global, nodes: &[Node], count: usize) -> Result<Vec<Option<u32>>, NoMemory> {
    let mut leaves: Vec<Option<u32>> = vec![in alloc; None; count]?;
    let mut number = 0u32;
    for node in nodes {
        note_leaf(leaves.as_mut_slice(), node, number);
        number = number.saturating_add(1);
    }
    Ok(leaves)
}

// Rows without a number.
fn empty_rows(alloc: Global, count: usize) -> Result<Vec<Vec<u32>>, NoMemory> {
    let mut rows = Vec::new(alloc);
    for _at in 0..count {
        rows.push(Vec::new(alloc))?;
    }
    Ok(rows)
}

// Adds a number to a row, where there is one.
fn add_to(rows: &mut [Vec<u32>], row: usize, number: u32) -> Result<(), NoMemory> {
    if row >= rows.len() {
        return Ok(());
    }
    rows[row].push(number)?;
    Ok(())
}

// For each pool its claims, or its locks alone.
fn rows_by_pool(
    alloc: Global,
    claims: &[OpenClaim],
    pools: usize,
    locks_alone: bool,
) -> Result<Vec<Vec<u32>>, NoMemory> {
    let mut rows = empty_rows(alloc, pools)?;
    let mut number = 0u32;
    for claim in claims {
        if claim.lock || !locks_alone {
            if let Some(pool) = claim.pool {
                add_to(rows.as_mut_slice(), pool as usize, number)?;
            }
        }
        number = number.saturating_add(1);
    }
    Ok(rows)
}

// The group of an action.
fn group_at(groups: &[u32], act: u32) -> usize {
    match groups.get(act as usize) {
        Some(group) => *group as usize,
        None => usize::MAX,
    }
}

// For each group its claims; no rows where each action starts alone.
fn rows_by_group(
    alloc: Global,
    claims: &[OpenClaim],
    groups: &[u32],
) -> Result<Vec<Vec<u32>>, NoMemory> {
    if !are_joined(groups) {
        return Ok(Vec::new(alloc));
    }
    let mut rows = empty_rows(alloc, groups.len())?;
    let mut number = 0u32;
    for claim in claims {
        let group = group_at(groups, claim.act);
        add_to(rows.as_mut_slice(), group, number)?;
        number = number.saturating_add(1);
    }
    Ok(rows)
}

// A row, empty where there is none.
fn row_at(rows: &[Vec<u32>], row: usize) -> &[u32] {
    match rows.get(row) {
        Some(row) => row.as_slice(),
        None => &[],
    }
}

// The action of the claim at a place of a row.
fn act_at(claims: &[OpenClaim], row: &[u32], place: usize) -> u32 {
    let Some(number) = row.get(place) else {
        return u32::MAX;
    };
    match claims.get(*number as usize) {
        Some(claim) => claim.act,
        None => u32::MAX,
    }
}

// The first place of a row whose claim isn't of an earlier action than this one.
fn place_of(claims: &[OpenClaim], row: &[u32], act: u32) -> usize {
    let mut low = 0;
    let mut high = row.len();
    for _step in 0..64 {
        if low >= high {
            return low;
        }
        let middle = low + (high - low) / 2;
        if act_at(claims, row, middle) < act {
            low = middle + 1;
        } else {
            high = middle;
        }
    }
    low
}

// Adds the claims of a row that are of actions from one to before another.
fn add_between(
    found: &mut Vec<u32>,
    claims: &[OpenClaim],
    row: &[u32],
    from: u32,
    to: u32,
) -> Result<(), NoMemory> {
    for place in place_of(claims, row, from)..row.len() {
        if act_at(claims, row, place) >= to {
            return Ok(());
        }
        found.push(row[place])?;
    }
    Ok(())
}

// Whether a node is a `parallel`, with a join form or without.
fn is_parallel(node: &Node) -> bool {
    match &node.fill {
        Fill::Parallel => true,
        Fill::Joined { parallel, .. } => *parallel,
        _ => false,
    }
}

// The number of the first action in a node.
fn first_in(firsts: &[u32], node: usize) -> u32 {
    match firsts.get(node) {
        Some(first) => *first,
        None => 0,
    }
}

impl<'a> Finder<'a> {
    /// The rows of these claims.
    pub fn new(
        alloc: Global,
        scenario: &'a Scenario,
        claims: &'a [OpenClaim],
        groups: &'a [u32],
        pools: usize,
    ) -> Result<Finder<'a>, NoMemory> {
        let nodes = scenario.nodes.as_slice();
        Ok(Finder {
            nodes,
            claims,
            groups,
            firsts: firsts_of(alloc, nodes)?,
            leaves: leaves_of(alloc, nodes, groups.len())?,
            pools: rows_by_pool(alloc, claims, pools, false)?,
            locks: rows_by_pool(alloc, claims, pools, true)?,
            joined: rows_by_group(alloc, claims, groups)?,
        })
    }

    // The leaf of an action.
    fn leaf_of(&self, act: u32) -> Option<u32> {
        match self.leaves.get(act as usize) {
            Some(leaf) => *leaf,
            None => None,
        }
    }

    // Adds the claims of a row that stand in earlier branches of each `parallel` round an action.
    fn add_beside(&self, found: &mut Vec<u32>, row: &[u32], act: u32) -> Result<(), NoMemory> {
        let Some(leaf) = self.leaf_of(act) else {
            return Ok(());
        };
        let mut at = leaf as usize;
        for _step in 0..self.nodes.len() {
            let Some(node) = self.nodes.get(at) else {
                return Ok(());
            };
            let Some(parent) = node.parent else {
                return Ok(());
            };
            let parent = parent as usize;
            if let Some(block) = self.nodes.get(parent) {
                if is_parallel(block) {
                    let from = first_in(&self.firsts, parent);
                    let to = first_in(&self.firsts, at);
                    add_between(found, self.claims, row, from, to)?;
                }
            }
            at = parent;
        }
        Ok(())
    }

    // Adds the claims of other actions that start together with an action.
    fn add_joined(&self, found: &mut Vec<u32>, act: u32) -> Result<(), NoMemory> {
        for number in row_at(&self.joined, group_at(self.groups, act)) {
            found.push(*number)?;
        }
        Ok(())
    }

    /// The numbers of the claims with which a claim is compared, in ascending order; some may be there twice, and some
    /// are later ones.
    pub fn find(&self, found: &mut Vec<u32>, claim: &OpenClaim) -> Result<(), NoMemory> {
        found.clear();
        let Some(pool) = claim.pool else {
            return Ok(());
        };
        let rows = if claim.lock { &self.pools } else { &self.locks };
        let row = row_at(rows, pool as usize);
        self.add_joined(found, claim.act)?;
        self.add_beside(found, row, claim.act)?;
        add_between(
            found,
            self.claims,
            row,
            claim.act,
            claim.act.saturating_add(1),
        )?;
        found.sort_unstable();
        Ok(())
    }
}
