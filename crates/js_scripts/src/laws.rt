//! That a text is read in one way.
ghost use Rattle.std.specs.Prelude.{◌≡◌, ℕ, List};
ghost use Rattle.js_scripts.specs.Text.{Reading, Reads};

use js_grammar::{scripts_derive, scripts_have_one_refusal};
use js_lexer::one_reading;

/// A text is a script in one way, or it is refused for one reason, and never both.
pub fn texts_are_read_once()
    ensures { (bytes : List ℕ) (one other : Reading) → Reads bytes one → Reads bytes other → one ≡ other }
{
    one_reading();
    scripts_derive();
    scripts_have_one_refusal();
}
