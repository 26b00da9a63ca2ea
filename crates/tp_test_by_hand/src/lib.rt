//! What was worked out by hand: the order of elements, saved files by their bytes, worlds by their replies, windows by what a
//! page is answered.
#![tactic(auto)]

#[cfg(test)]
mod saved;
#[cfg(test)]
mod sequences;
#[cfg(test)]
mod windows;
#[cfg(test)]
mod worlds;
