//! Tests of the crates of formats: compiled sequences and their dumps, MessagePack values, JSON texts.
#![tactic(auto)]

#[cfg(test)]
mod dumps;
#[cfg(test)]
mod json;
#[cfg(test)]
mod messages;
#[cfg(test)]
mod sound_bodies;
