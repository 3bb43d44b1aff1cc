//! What the records of an image say: types, fields, globals, locals, functions and instructions.
#![tactic(auto)]

pub mod function;
pub mod global;
pub mod instruction;
pub mod kind;
pub mod typed;
mod words;
