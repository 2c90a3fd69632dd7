//! Where constraints stand.
use pst_model::Constraint;

/// Where a constraint stands.
#[derive(Debug, Drop)]
pub enum Site {
    /// At the compound action of a node.
    Node {
        node: usize,
    },
    /// At a traversal in the activity of the compound action of node `top`, in turns of these numbers,
    /// the outermost first.
    Traversal {
        node: usize,
        top: usize,
        indices: Vec<u32>,
    },
    /// At an atomic action.
    Act {
        act: u32,
    },
    /// At the object that an output writes.
    Output {
        act: u32,
        reference: u32,
    },
    /// At the resource that a claim claims.
    Claim {
        act: u32,
        claim: u32,
    },
    /// At the first object of a pool.
    First {
        pool: u32,
    },
}

/// The constraints that stand at a site.
#[derive(Drop)]
pub struct Group<'a> {
    /// The site.
    pub site: Site,
    /// The constraints.
    pub constraints: &'a [Constraint],
}
