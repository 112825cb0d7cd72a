//! Tests of the words of a command line. They stand apart from command_words, which is so proved without them.
#![tactic(auto)]

#[cfg(test)]
mod words;
