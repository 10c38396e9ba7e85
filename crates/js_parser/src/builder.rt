//! Nodes that were made, and the forms that are open.

ghost use Rattle.std.specs.Prelude.{◌≡◌, ℕ, ◌+◌, ◌<◌, ◌∷◌, ◌++◌, List, [], length, true, slice_get, IfOk, Some, None, map, pos, nat_eq, ◌&&◌, MatchOption};
ghost use Rattle.std.specs.Fmt.{signed_decimal};
ghost use Rattle.js_lexer.specs.declared.token.Token.{Token};
ghost use Rattle.parser_rules.specs.Work.{is_name, is_number, with_place};
ghost use Rattle.js_parser.specs.View.{known, all_known};

use crate::draft::{Draft, Piece};
use crate::nodes::Nodes;
use crate::stacks::{put_draft, put_piece, take_draft, take_piece};
use ivm_text::{CloneWhole, Items, NoMemory, Units};
use js_lexer::{Token, TokenKind};
use js_syntax::{Kids, Kind, Node};
use parser_rules::Cover;
use std::alloc::Global;
use std::mem;

/// Forms under construction.
#[derive(Drop)]
pub(crate) struct Builder {
    pub alloc: Global,
    /// The nodes that were made.
    pub nodes: Nodes,
    /// The innermost open form.
    pub top: Draft,
    /// The forms around it, the outermost first.
    pub below: Items<Draft>,
    ghost top_known: { known (length nodes) top.pieces ≡ true },
    ghost below_known: { all_known (length nodes) below ≡ true },
}

impl Builder {
    ghost use Rattle.std.specs.Prelude.{◌≡◌, ℕ, ◌+◌, ◌<◌, ◌∷◌, ◌++◌, List, [], length, ◌-◌, true, slice_get, IfOk, IfSome, MatchOption, Some, None};
    ghost use Rattle.std.specs.Fmt.{signed_decimal};
    ghost use Rattle.parser_rules.specs.Work.{Work, pushed, added, opened_at, preceded, closed, paired, unwrapped, with_own_name, with_one_name, with_value, named_by, declared_by, keyed_by, valued_by, bare_name, last_name, shorthanded, offered, only_expressions, only_parameters, cleared, omitted};
    ghost use Rattle.js_lexer.specs.declared.token.Token.{Token};
    ghost use Rattle.js_parser.specs.declared.draft.Piece.{Piece};
    ghost use Rattle.js_parser.specs.View.{known, grown, frame_of, part_at};
    ghost use Rattle.js_parser.specs.Changes.{Changes, work_in};

    /// A form of a kind begins at this place.
    pub fn open(&mut self, kind: Kind, place: u32) -> Result<(), NoMemory>
        ensures work { IfOk result (λ _. Changes (opened_at kind place) self.old self.new) }
        ensures nodes { self.new.nodes ≡ self.old.nodes }
    {
        let inner = Draft::new(self.alloc, kind, place);
        let outer = mem::replace(&mut self.top, inner);
        put_draft(&mut self.below, outer)
    }

    /// A form is the last part of the innermost open one.
    fn push(&mut self, piece: Piece) -> Result<(), NoMemory>
        requires { piece.node < length self.old.nodes }
        ensures { IfOk result (λ _. Changes (pushed (part_at (grown [] self.old.nodes) piece)) self.old self.new) }
    {
        put_piece(&mut self.top.pieces, piece)
    }

    /// A form of a kind begins with the part that was read last.
    pub fn precede(&mut self, kind: Kind) -> Result<(), NoMemory>
        ensures { IfOk result (λ _. Changes (preceded kind) self.old self.new) }
    {
        match take_piece(&mut self.top.pieces) {
            Some(piece) => {
                self.open(kind, piece.start)?;
                self.push(piece)
            }
            None => Ok(()),
        }
    }

    /// The innermost form is whole, and a part of the one around it.
    pub fn close(&mut self) -> Result<(), NoMemory>
        ensures { IfOk result (λ _. Changes closed self.old self.new) }
    {
        match take_draft(&mut self.below) {
            Some(outer) => {
                let inner = mem::replace(&mut self.top, outer);
                self.add(inner)
            }
            None => Ok(()),
        }
    }

    /// Makes a node of a form, and a part of the innermost open one.
    fn add(&mut self, draft: Draft) -> Result<(), NoMemory>
        requires { known (length self.old.nodes) draft.pieces ≡ true }
        ensures { IfOk result (λ _. Changes (added (frame_of (grown [] self.old.nodes) draft)) self.old self.new) }
    {
        let start = draft.place;
        let node = node_of(self.alloc, draft)?;
        let number = self.nodes.add(node)?;
        put_piece(
            &mut self.top.pieces,
            Piece {
                node: number,
                start,
            },
        )
    }

    /// The last two parts are one node, which starts where the first of them starts.
    pub fn pair(&mut self, kind: Kind) -> Result<(), NoMemory>
        ensures { IfOk result (λ _. Changes (paired kind) self.old self.new) }
    {
        match take_piece(&mut self.top.pieces) {
            Some(second) => self.pair_with(kind, second),
            None => Ok(()),
        }
    }

    /// The last part and this one, which stood behind it, are one node.
    fn pair_with(&mut self, kind: Kind, second: Piece) -> Result<(), NoMemory>
        requires { second.node < length self.old.nodes }
        ensures { IfOk result (λ _. (w : Work) (rest : List Token) → w.top.parts ≡ part_at (grown [] self.old.nodes) second ∷ (work_in rest self.old).top.parts → work_in rest self.old ≡ record w { top = record (w.top) { parts = (work_in rest self.old).top.parts } } → work_in rest self.new ≡ paired kind w) }
    {
        match take_piece(&mut self.top.pieces) {
            Some(first) => {
                let pair = pair_of(self.alloc, kind, first, second)?;
                self.add(pair)
            }
            None => self.push(second),
        }
    }

    /// The innermost form was only parentheses: its part belongs to the form around it, and starts
    /// at the `(`.
    pub fn unwrap(&mut self) -> Result<(), NoMemory>
        ensures { IfOk result (λ _. Changes unwrapped self.old self.new) }
    {
        match take_piece(&mut self.top.pieces) {
            Some(piece) => self.unwrap_part(piece),
            None => Ok(()),
        }
    }

    /// This part, which was the last one, belongs to the form around the innermost one.
    fn unwrap_part(&mut self, piece: Piece) -> Result<(), NoMemory>
        requires { piece.node < length self.old.nodes }
        ensures { IfOk result (λ _. (w : Work) (rest : List Token) → w.top.parts ≡ part_at (grown [] self.old.nodes) piece ∷ (work_in rest self.old).top.parts → work_in rest self.old ≡ record w { top = record (w.top) { parts = (work_in rest self.old).top.parts } } → work_in rest self.new ≡ unwrapped w) }
    {
        match take_draft(&mut self.below) {
            Some(outer) => {
                let inner = mem::replace(&mut self.top, outer);
                self.push(Piece {
                    node: piece.node,
                    start: inner.place,
                })
            }
            None => self.push(piece),
        }
    }

    /// The innermost form has a name, which stands at this place.
    pub fn name(&mut self, name: &Units, place: u32) -> Result<(), NoMemory>
        ensures { IfOk result (λ _. Changes (with_own_name name.now place) self.old self.new) }
    {
        self.top.name = Some(name.clone_whole(self.alloc)?);
        self.top.name_place = place;
        Ok(())
    }

    /// One more of the innermost form's names stands at this place.
    pub fn declare(&mut self, name: &Units, place: u32) -> Result<(), NoMemory>
        ensures { IfOk result (λ _. Changes (with_one_name name.now place) self.old self.new) }
    {
        self.push_name(name.clone_whole(self.alloc)?, place)
    }

    fn push_name(&mut self, name: Units, place: u32) -> Result<(), NoMemory>
        ensures { IfOk result (λ _. Changes (with_one_name name place) self.old self.new) }
    {
        self.top.names.push(name)?;
        self.top.places.push(place)?;
        Ok(())
    }

    /// The innermost form has the key that is a number's decimal text.
    fn declare_number(&mut self, token: &Token) -> Result<(), NoMemory>
        ensures { IfOk result (λ _. Changes (with_one_name (signed_decimal token.now.number) token.now.place) self.old self.new) }
    {
        self.push_name(decimal_of(self.alloc, token)?, token.place)
    }

    /// The innermost form has the value of a number.
    fn set_value(&mut self, token: &Token) -> Result<(), NoMemory>
        ensures { IfOk result (λ _. Changes (with_value token.now.number) self.old self.new) }
    {
        self.top.number = token.number;
        Ok(())
    }

    /// The innermost form has the name of the first of these tokens.
    pub fn name_by(&mut self, tokens: &[Token]) -> Result<(), NoMemory>
        ensures { IfOk result (λ _. Changes (named_by tokens.now) self.old self.new) }
    {
        match first(tokens) {
            Some(token) => self.name(&token.text, token.place),
            None => Ok(()),
        }
    }

    /// The innermost form declares the name that is the first of these tokens.
    pub fn declare_by(&mut self, tokens: &[Token]) -> Result<(), NoMemory>
        ensures { IfOk result (λ _. Changes (declared_by tokens.now) self.old self.new) }
    {
        match first(tokens) {
            Some(token) => self.declare(&token.text, token.place),
            None => Ok(()),
        }
    }

    /// The innermost form has the key that is the first of these tokens.
    pub fn key_by(&mut self, tokens: &[Token]) -> Result<(), NoMemory>
        ensures { IfOk result (λ _. Changes (keyed_by tokens.now) self.old self.new) }
    {
        match first(tokens) {
            Some(token) => {
                if is_number(token.kind) {
                    self.declare_number(token)
                } else {
                    self.declare(&token.text, token.place)
                }
            }
            None => Ok(()),
        }
    }

    /// The innermost form has the value of the first of these tokens.
    pub fn value_by(&mut self, tokens: &[Token]) -> Result<(), NoMemory>
        ensures { IfOk result (λ _. Changes (valued_by tokens.now) self.old self.new) }
    {
        match first(tokens) {
            Some(token) => self.set_value(token),
            None => Ok(()),
        }
    }

    /// The value of the last key is the name that the key is.
    pub fn shorthand(&mut self) -> Result<(), NoMemory>
        ensures { IfOk result (λ _. Changes shorthanded self.old self.new) }
    {
        match self.last_name()? {
            Some((name, place)) => {
                let mut leaf = Draft::new(self.alloc, Kind::Name, place);
                leaf.name = Some(name);
                leaf.name_place = place;
                self.add(leaf)
            }
            None => Ok(()),
        }
    }

    /// The last of the innermost form's names, and where it stands.
    fn last_name(&self) -> Result<Option<(Units, u32)>, NoMemory>
        ensures { IfOk result (λ last. last ≡ last_name self.now.top.names self.now.top.places) }
    {
        let at = self.top.names.len().saturating_sub(1);
        match self.top.names.get(at) {
            Some(name) => match self.top.places.get(at) {
                Some(place) => Ok(Some((name.clone_whole(self.alloc)?, *place))),
                None => Ok(None),
            },
            None => Ok(None),
        }
    }

    /// The part read last may be a parameter where it is a name with nothing around it.
    pub fn offer(&mut self) -> Result<(), NoMemory>
        ensures { IfOk result (λ _. Changes offered self.old self.new) }
    {
        match self.last_piece() {
            Some(piece) => match self.bare_name(piece)? {
                Some((name, place)) => self.push_name(name, place),
                None => {
                    self.only_expressions();
                    Ok(())
                }
            },
            None => Ok(()),
        }
    }

    /// The last part of the innermost form.
    pub fn last_piece(&self) -> Option<Piece>
        ensures known { IfSome result (λ piece. piece.node < length self.now.nodes) }
        ensures last { MatchOption result (self.now.top.pieces ≡ []) (λ piece. (front : List Piece) × (self.now.top.pieces ≡ front ++ piece ∷ [])) }
    {
        self.top.pieces.as_slice().last().copied()
    }

    /// The name that a part is, where nothing is around it.
    fn bare_name(&self, piece: Piece) -> Result<Option<(Units, u32)>, NoMemory>
        requires { piece.node < length self.now.nodes }
        ensures { IfOk result (λ name. name ≡ bare_name (part_at (grown [] self.now.nodes) piece)) }
    {
        let node = self.nodes.node(piece.node);
        if is_bare(node.kind, piece.start, node.place) {
            named_at(self.alloc, &node.name, node.place)
        } else {
            Ok(None)
        }
    }

    /// What stands in the parentheses are expressions.
    fn only_expressions(&mut self)
        ensures { Changes only_expressions self.old self.new }
    {
        self.top.cover = Cover::Expressions;
    }

    /// Nothing but parameters stand in the parentheses.
    pub fn only_parameters(&mut self)
        ensures { Changes only_parameters self.old self.new }
    {
        self.top.cover = Cover::Parameters;
    }

    /// The parameters are no parts of the arrow function.
    pub fn clear(&mut self)
        ensures { Changes cleared self.old self.new }
    {
        self.top.pieces = Items::new(self.alloc);
    }

    /// Something is left out.
    pub fn omit(&mut self) -> Result<(), NoMemory>
        ensures { IfOk result (λ _. Changes omitted self.old self.new) }
    {
        self.add(Draft::new(self.alloc, Kind::Absent, 0))
    }
}

/// The node of a form that is whole.
fn node_of(alloc: Global, draft: Draft) -> Result<Node, NoMemory>
    ensures { IfOk result (λ node. node ≡ record { kind = draft.kind; name = draft.name; name_place = draft.name_place; names = draft.names; places = draft.places; number = draft.number; kids = map (λ p. p.node) draft.pieces; place = draft.place }) }
{
    let kids = numbers_of(alloc, &draft.pieces)?;
    Ok(Node {
        kind: draft.kind,
        name: draft.name,
        name_place: draft.name_place,
        names: draft.names,
        places: draft.places,
        number: draft.number,
        kids,
        place: draft.place,
    })
}

/// The numbers of the nodes of these parts.
fn numbers_of(alloc: Global, pieces: &Items<Piece>) -> Result<Kids, NoMemory>
    ensures { IfOk result (λ kids. kids ≡ map (λ p. p.node) pieces.now) }
{
    let mut kids = Items::new(alloc);
    for piece in pieces.as_slice() {
        kids.push(piece.node)?;
    }
    Ok(kids)
}

/// A form of two parts, which starts where the first of them starts.
fn pair_of(alloc: Global, kind: Kind, first: Piece, second: Piece) -> Result<Draft, NoMemory>
    ensures { IfOk result (λ pair. pair ≡ record { kind = kind; name = None; name_place = 0; names = []; places = []; number = pos 0; place = first.start; cover = Cover.Names; pieces = first ∷ second ∷ [] }) }
{
    let mut pair = Draft::new(alloc, kind, first.start);
    put_piece(&mut pair.pieces, first)?;
    put_piece(&mut pair.pieces, second)?;
    Ok(pair)
}

/// Whether a node of this kind and place is a name, and the part that it is starts with it.
fn is_bare(kind: Kind, start: u32, place: u32) -> bool
    ensures { result ≡ (is_name kind && nat_eq start place) }
{
    match kind {
        Kind::Name => start == place,
        _ => false,
    }
}

/// A name, where there is one, with its place.
fn named_at(
    alloc: Global,
    name: &Option<Units>,
    place: u32,
) -> Result<Option<(Units, u32)>, NoMemory>
    ensures { IfOk result (λ named. named ≡ with_place name.now (Some place)) }
{
    match name {
        Some(name) => Ok(Some((name.clone_whole(alloc)?, place))),
        None => Ok(None),
    }
}

pub(crate) fn first(tokens: &[Token]) -> Option<&Token>
    ensures { MatchOption result (tokens.now ≡ []) (λ token. (rest : List Token) × (tokens.now ≡ token.now ∷ rest)) }
{
    match tokens.split_first() {
        Some((token, _)) => Some(token),
        None => None,
    }
}

fn is_number(kind: TokenKind) -> bool
    ensures { result ≡ is_number kind }
{
    match kind {
        TokenKind::Num => true,
        _ => false,
    }
}

fn decimal_of(alloc: Global, token: &Token) -> Result<Units, NoMemory>
    ensures { IfOk result (λ text. text ≡ signed_decimal token.now.number) }
{
    Units::decimal(alloc, token.number)
}
