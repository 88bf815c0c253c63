//! Tests of escape sequences: the bytes beside those of a terminal's manual, each send failing in
//! turn, of `follow` too, and random plays beside the backend in memory, read by the model.
#![tactic(auto)]

#[cfg(test)]
mod backends;
#[cfg(test)]
mod columns;
#[cfg(test)]
mod dropped;
#[cfg(test)]
mod failing;
#[cfg(test)]
mod following;
#[cfg(test)]
mod halves;
#[cfg(test)]
mod parameters;
#[cfg(test)]
mod plays;
#[cfg(test)]
mod reader;
#[cfg(test)]
mod sequences;
#[cfg(test)]
mod sizes;
#[cfg(test)]
mod tearing;
