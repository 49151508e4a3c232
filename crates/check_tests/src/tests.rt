//! Lists, texts, words and rules.

mod lists;
mod rules;
mod texts;
mod words;
