//! Forms under construction.

ghost use Rattle.std.specs.Prelude.{◌≡◌, pos, None, [], ◌∷◌, ◌++◌};

use ivm_text::{Items, Units};
use js_syntax::{Kind, Names, Places};
use parser_rules::Cover;
use std::alloc::Global;

/// A form that was read.
#[derive(Debug, Clone, Copy, PartialEq, Eq, Drop)]
pub(crate) struct Piece {
    /// The number of its node.
    pub node: u32,
    /// The byte at which it starts, with the parentheses around it.
    pub start: u32,
}

/// A form that is open: what its node will have.
#[derive(Drop)]
pub(crate) struct Draft {
    pub kind: Kind,
    pub name: Option<Units>,
    pub name_place: u32,
    pub names: Names,
    pub places: Places,
    pub number: i64,
    pub place: u32,
    /// What it may be, where it began with a `(`.
    pub cover: Cover,
    /// The forms of which it is made, in order.
    pub pieces: Items<Piece>,
}

impl Draft {
    pub fn new(alloc: Global, kind: Kind, place: u32) -> Draft
        ensures { result ≡ record { kind = kind; name = None; name_place = 0; names = []; places = []; number = pos 0; place = place; cover = Cover.Names; pieces = [] } }
    {
        Draft {
            kind,
            name: None,
            name_place: 0,
            names: Items::new(alloc),
            places: Items::new(alloc),
            number: 0,
            place,
            cover: Cover::Names,
            pieces: Items::new(alloc),
        }
    }
}
