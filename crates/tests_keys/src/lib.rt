//! Tests of what reads keys: readers that give bytes in pieces and fail between them, counters run
//! over such pieces and at a line that is watched, reads that a clock times, names that are removed,
//! planets that are chosen, a page of the pager, and what keys make of text fields and areas.
#![tactic(auto)]

#[cfg(test)]
mod area;
#[cfg(test)]
mod browsers;
#[cfg(test)]
mod choosers;
#[cfg(test)]
mod clocks;
#[cfg(test)]
mod counters;
#[cfg(test)]
mod fields;
#[cfg(test)]
mod inputs;
#[cfg(test)]
mod keys;
#[cfg(test)]
mod pages;
#[cfg(test)]
mod readers;
#[cfg(test)]
mod removers;
#[cfg(test)]
mod screens;
#[cfg(test)]
mod sizes;
#[cfg(test)]
mod watched;
