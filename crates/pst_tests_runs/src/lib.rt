//! Tests of models, of squares of pairs, and of what may cross threads. What scenarios, plans and
//! runs are answered stands in the table of `pst_tests_plans`.
#![tactic(auto)]

#[cfg(test)]
mod machine;
#[cfg(test)]
mod models;
#[cfg(test)]
mod rows;
#[cfg(test)]
mod slots;
#[cfg(test)]
mod statements;
#[cfg(test)]
mod threads;
