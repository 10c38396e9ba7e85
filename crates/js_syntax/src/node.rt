//! One node of a script.

use crate::Kind;
use ivm_text::{Items, Units};

/// The names of a node, in order.
pub type Names = Items<Units>;

/// The bytes at which names stand.
pub type Places = Items<u32>;

/// The numbers of a node's kids, in order.
pub type Kids = Items<u32>;

/// One node of a script. Places are bytes of the text, counted from 0.
#[derive(Debug, Drop)]
pub struct Node {
    pub kind: Kind,
    /// The name of a function, a member, a constructor, a `catch` or a Name, and what a string
    /// stands for.
    pub name: Option<Units>,
    /// Where the name stands; 0 without one.
    pub name_place: u32,
    /// What a declaration declares, a function's parameters, or an object's keys.
    pub names: Names,
    /// Where each of the names stands.
    pub places: Places,
    /// The value of a number; 0 for all others.
    pub number: i64,
    pub kids: Kids,
    /// Where its form begins; 0 for a Script and an Absent.
    pub place: u32,
}
