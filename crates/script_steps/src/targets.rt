//! Targets of assignments: where they begin.
ghost use Rattle.std.specs.Prelude.{◌≡◌};
ghost use Rattle.charged_heap.specs.Store.{Store};
ghost use Rattle.script_meaning.specs.Evaluates.{target_by};
ghost use Rattle.script_meaning.specs.Places.{form_at};
ghost use Rattle.script_steps.specs.After.{Waits};
ghost use Rattle.script_steps.specs.Fits.{Is, IsForm, StepFits};
ghost use Rattle.script_steps.specs.Sound.{IsThere, IsSoundSite, IsSoundStep};

use crate::Step;
use crate::members::{begin_index, begin_member};
use js_syntax::{Kind, Scripts};
use script_meaning::{Ended, Place, Role, Site};

/// Ends a target that is a name with its place.
#[inline(always)]
fn target_name(scripts: &Scripts, node: u32, site: Site) -> Step
    requires { ((form_at scripts.now site.script node).head).number_of_node ≡ node }
    ensures step { Waits scripts.now result (λ at s. target_by Kind.Name at (form_at scripts.now site.script node) site s) }
    ensures sound { (s : Store) → IsSoundSite s site → IsSoundStep s result }
    ensures fits { StepFits scripts.now result }
{
    let _ = scripts;
    let _ = site;
    Step::Ended(Ok(Ended::Place(Place::Name(node))))
}

/// Begins a target for its place; a form that is none is empty.
#[inline(always)]
pub(crate) fn begin_target(scripts: &Scripts, kind: Kind, node: u32, site: Site) -> Step
    requires itself { IsThere kind → ((form_at scripts.now site.script node).head).number_of_node ≡ node }
    requires form { IsForm (Is kind) scripts.now site.script node }
    ensures step { Waits scripts.now result (λ at s. target_by kind at (form_at scripts.now site.script node) site s) }
    ensures sound { (s : Store) → IsSoundSite s site → IsSoundStep s result }
    ensures fits { StepFits scripts.now result }
{
    match kind {
        Kind::Name => target_name(scripts, node, site),
        Kind::Member => begin_member(scripts, Role::Target, node, site),
        Kind::Index => begin_index(scripts, Role::Target, node, site),
        _ => Step::Ended(Ok(Ended::Empty)),
    }
}
