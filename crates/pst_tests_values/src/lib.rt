//! Tests of domains, of what may cross threads, of laws, and of parsing tokens that no text has. What
//! numbers, expressions, spans and words are answered stands in the table of `pst_tests_numbers`.
#![tactic(auto)]

#[cfg(test)]
mod domains;
#[cfg(test)]
mod laws;
#[cfg(test)]
mod threads;
#[cfg(test)]
mod tokens;
