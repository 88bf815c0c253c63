//! What is outside of states that ask for nothing.

use crate::acts::Acts;
use crate::glass::Glass;
use crate::outside::Outside;
use std::io::{self, ErrorKind};

/// What a state asks for, and is answered, that asks for nothing.
#[derive(Debug, Drop, Clone, Copy, PartialEq, Eq)]
pub struct Never;

/// What is outside of states that ask for nothing.
#[derive(Debug, Drop, Clone, Copy, PartialEq, Eq)]
pub struct Nothing;

impl<A: Acts<Command = Never>, G: Glass<A>> Outside<A, G> for Nothing {
    ghost answers = { λ _ _ _ _. ⊥ };

    fn perform(&mut self, _glass: &G, _state: &A, _command: &Never) -> io::Result<A::Answer> {
        Err(ErrorKind::Unsupported.into())
    }
}
