//! What is known of whatever a list of choices has read lies in its domains, and what is refused
//! there stays refused: what nodes, actions, links and values of compound actions are while a
//! scenario is read, and that behind the sources each list goes on to one that is read whole. Each
//! law is the contract of a function that does nothing; a caller that needs a law in a proof calls
//! its function.
#![tactic(auto)]

mod laws;
mod read_acts_laws;
mod read_nodes_laws;
mod read_values_laws;
mod refusals_stay_laws;
mod whole_ahead_laws;

pub use laws::{read_values_are_in_domains, refusals_stay_refused};
pub use read_acts_laws::{acts_are_of_their_types, links_join_pools};
pub use read_nodes_laws::{handles_have_their_types, nodes_stand_for_pieces};
pub use read_values_laws::compound_values_are_in_domains;
pub use refusals_stay_laws::{
    beginnings_are_live, legal_scenarios_are_in_domains, refused_does_not_hold,
    refused_lists_are_barren,
};
pub use whole_ahead_laws::whole_lists_lie_ahead;
