//! The first form of a script that can't be carried out yet.
ghost use Rattle.std.specs.Prelude.{◌≡◌, length};
ghost use Rattle.js_scripts.specs.Unbuilt.{is_unbuilt as is_unbuilt_kind};
ghost use Rattle.js_scripts.specs.Lowest.{lower_of as lower_place, unbuilt_place as place_in, lowest_below};

use js_syntax::{Kind, Node, Script};

// Whether a form of this kind can't be carried out yet.
fn is_unbuilt(kind: Kind) -> bool
    ensures { result ≡ is_unbuilt_kind kind }
{
    matches!(kind, Kind::New)
}

// The place of a form that can't be carried out yet.
fn unbuilt_place(node: &Node) -> Option<u32>
    ensures { result ≡ place_in node.now }
{
    if is_unbuilt(node.kind) {
        Some(node.place)
    } else {
        None
    }
}

// The lower of two places.
fn lower_of(first: Option<u32>, second: Option<u32>) -> Option<u32>
    ensures { result ≡ lower_place first second }
{
    match (first, second) {
        (None, other) => other,
        (Some(place), None) => Some(place),
        (Some(place), Some(other)) => Some(place.min(other)),
    }
}

/// The least place of a form that can't be carried out yet, among all nodes.
pub(crate) fn lowest_unbuilt(script: &Script) -> Option<u32>
    ensures { result ≡ lowest_below script.now (length script.now) }
{
    let mut lowest = None;
    for n in 0..script.len() {
        lowest = lower_of(lowest, unbuilt_place(script.node(n)));
    }
    lowest
}
