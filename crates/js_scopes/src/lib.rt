//! Names and scopes over a heap: what a name reads, what an assignment leaves, and the scopes of forms and scripts.
//!
//! Contracts see a `Heap` as its `Store`, and say what a call gives by one function of that store.
//! Rely on: a call gives that value, throws that error or is refused with those cells, and nothing else; a script
//! that clashes declares nothing; a closed heap stays closed however a call ends.
//! Over `js_members`, `js_ops`, `js_trees` and `charged_heap`; under all that evaluates.
//! Begin with `specs/Lookup.antt`, `specs/Names.antt` and `specs/Lists.antt`, then `src/names.rt`.
#![tactic(auto)]

mod bindings;
mod clashes;
mod form_scopes;
mod list_functions;
mod list_names;
mod lookup;
mod names;
mod scopes;
mod script_clashes;
mod scripts;

pub use bindings::add_binding;
pub use charged_heap::{Bindings, Fail};
pub use clashes::{is_clash, refuse_clash};
pub use form_scopes::{block_scope, call_scope, catch_scope, name_scope};
pub use lookup::{BindingPlace, Lookup, look_up};
pub use names::{assign_name, read_name, type_of_name};
pub use scopes::{copy_scope, initialise, make_scope};
pub use scripts::declare_script;
