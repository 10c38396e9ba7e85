//! Lists of parts and of open forms, of which the last one is at hand.

ghost use Rattle.std.specs.Prelude.{◌≡◌, ℕ, ◌<◌, ◌∷◌, ◌++◌, [], true, IfOk, IfSome, MatchOption};
ghost use Rattle.js_parser.specs.View.{known, all_known};

use crate::draft::{Draft, Piece};
use ivm_text::{Items, NoMemory};

/// Puts a form on top of those that are open.
pub(crate) fn put_draft(drafts: &mut Items<Draft>, draft: Draft) -> Result<(), NoMemory>
    ensures ok { IfOk result (λ _. drafts.new ≡ drafts.old ++ draft ∷ []) }
    ensures known { (n : ℕ) → all_known n drafts.old ≡ true → known n draft.pieces ≡ true → all_known n drafts.new ≡ true }
{
    match drafts.push(draft) {
        Ok(()) => Ok(()),
        Err(_) => Err(NoMemory),
    }
}

/// Takes the innermost open form.
pub(crate) fn take_draft(drafts: &mut Items<Draft>) -> Option<Draft>
    ensures drafts { MatchOption result ((drafts.old ≡ []) × (drafts.new ≡ [])) (λ draft. drafts.old ≡ drafts.new ++ draft ∷ []) }
    ensures known { (n : ℕ) → all_known n drafts.old ≡ true → all_known n drafts.new ≡ true }
    ensures taken { IfSome result (λ draft. (n : ℕ) → all_known n drafts.old ≡ true → known n draft.pieces ≡ true) }
{
    match drafts.pop() {
        Some(draft) => Some(draft),
        None => None,
    }
}

/// Puts a part behind the others.
pub(crate) fn put_piece(pieces: &mut Items<Piece>, piece: Piece) -> Result<(), NoMemory>
    ensures ok { IfOk result (λ _. pieces.new ≡ pieces.old ++ piece ∷ []) }
    ensures known { (n : ℕ) → known n pieces.old ≡ true → piece.node < n → known n pieces.new ≡ true }
{
    pieces.push(piece)?;
    Ok(())
}

/// Takes the last part.
pub(crate) fn take_piece(pieces: &mut Items<Piece>) -> Option<Piece>
    ensures pieces { MatchOption result ((pieces.old ≡ []) × (pieces.new ≡ [])) (λ piece. pieces.old ≡ pieces.new ++ piece ∷ []) }
    ensures known { (n : ℕ) → known n pieces.old ≡ true → known n pieces.new ≡ true }
    ensures taken { IfSome result (λ piece. (n : ℕ) → known n pieces.old ≡ true → piece.node < n) }
{
    pieces.pop()
}
