//! Tests that no row of text can say: terminals compared and copied, frames that lend
//! their buffer, readers and writers that fail, scripts of thousands of lines, plays of steps, what
//! borrows, lists of spans, what other types print, and all pairs of border symbols.
#![tactic(auto)]

#[cfg(test)]
mod borrows;
#[cfg(test)]
mod calls;
#[cfg(test)]
mod compared;
#[cfg(test)]
mod masked;
#[cfg(test)]
mod merge;
#[cfg(test)]
mod playing;
#[cfg(test)]
mod printed;
#[cfg(test)]
mod script;
#[cfg(test)]
mod steps;
