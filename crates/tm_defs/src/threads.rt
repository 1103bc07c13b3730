//! The types that a foreground and a background worker share or hand to one another.

use crate::caps::Caps;
use crate::changes::{Change, ChangeFault, LineEffect, Place};
use crate::events::{Step, Turn};
use crate::frames::{Delta, Frame, FrameData, ScopeList, StateData, StateId, TextId};
use crate::memory::OutOfMemory;
use crate::rules::{Capture, Captures, Numbers, Rule};
use crate::tables::TableFault;
use crate::texts::{Line, Name, ScopePath};
use crate::tokenizer::{LineFault, LineOut};
use crate::tokens::{Token, Tokens};

fn crosses<T: Send + Sync>() {}

/// Texts, states and what is made of them may cross and be shared between threads.
pub fn data_crosses() {
    crosses::<Name>();
    crosses::<Line>();
    crosses::<ScopePath>();
    crosses::<FrameData>();
    crosses::<StateData>();
    crosses::<Delta>();
    crosses::<Token>();
    crosses::<Tokens>();
    crosses::<Caps>();
}

/// Numbers of texts, lists and states, and rules by number, may cross and be shared between threads.
pub fn numbers_cross() {
    crosses::<TextId>();
    crosses::<ScopeList>();
    crosses::<StateId>();
    crosses::<Frame>();
    crosses::<Rule>();
    crosses::<Numbers>();
    crosses::<Capture>();
    crosses::<Captures>();
}

/// Orders, and the answers to them, may cross and be shared between threads.
pub fn orders_cross() {
    crosses::<Change>();
    crosses::<LineEffect>();
    crosses::<Step>();
    crosses::<Turn>();
    crosses::<LineOut>();
}

/// Faults may cross and be shared between threads.
pub fn faults_cross() {
    crosses::<Place>();
    crosses::<ChangeFault>();
    crosses::<TableFault>();
    crosses::<LineFault>();
    crosses::<OutOfMemory>();
}
