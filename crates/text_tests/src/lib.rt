//! Tests of the public calls of texts and tokens: each once with ample memory against its answer, worked rows, printed
//! texts.
#![tactic(auto)]

#[cfg(test)]
mod fixed_text_tests;
#[cfg(test)]
mod liq_base_tests;
#[cfg(test)]
mod script_lex_tests;
#[cfg(test)]
mod script_parse_tests;
#[cfg(test)]
mod text_key_tests;
#[cfg(test)]
mod texts;
