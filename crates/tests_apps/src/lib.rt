//! Tests of what stands on `ratatui_core`, which no row of text can say: areas divided by each
//! call, drawings, widgets on a buffer, small and large ones, the examples of `guide` on a screen in
//! memory, one of them under another name, which is proved as it stands, logs that are read and
//! written by what fails, a backend whose rows that scrolled off are text, what programs tell, states
//! of widgets that are settled, and settings in files: what is written, and what is read.
#![tactic(auto)]

#[cfg(test)]
mod areas;
#[cfg(test)]
mod boxes;
#[cfg(test)]
mod calls;
#[cfg(test)]
mod cuts;
#[cfg(test)]
mod examples;
#[cfg(test)]
mod gauges;
#[cfg(test)]
mod large;
#[cfg(test)]
mod logs;
#[cfg(test)]
mod printed;
#[cfg(test)]
mod printing;
#[cfg(test)]
mod setting_rows;
#[cfg(test)]
mod settings;
#[cfg(test)]
mod settled;
mod tag;
#[cfg(test)]
mod theme;
#[cfg(test)]
mod widgets;

pub use tag::Tag;
