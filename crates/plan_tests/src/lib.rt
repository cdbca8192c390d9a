//! Tests of the public calls of types and tables: each once with ample memory against its answer, worked rows.
#![tactic(auto)]

#[cfg(test)]
mod gaps_tests;
#[cfg(test)]
mod token_table_tests;
#[cfg(test)]
mod type_terms_tests;
