//! Tests of mailboxes, which start threads.
#![tactic(auto)]

#[cfg(test)]
mod mailboxes;
