//! Tests of the layers below the parser, of what their contracts do not say.
#![tactic(auto)]

#[cfg(test)]
mod local_names;
#[cfg(test)]
mod long_texts;
#[cfg(test)]
mod lookahead_rows;
#[cfg(test)]
mod shown_tokens;
#[cfg(test)]
mod symbol_names;
#[cfg(test)]
mod token_rows;
