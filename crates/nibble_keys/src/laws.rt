//! A law on the constant. It is proved where its function is: there is nothing to run.

ghost use Rattle.std.specs.Prelude.{◌≡◌};
ghost use Rattle.byte_model.specs.PackedPath.{longest_path};

use crate::nibbles::LONGEST_PATH;

/// The longest path is that of the definitions.
pub fn longest_path_is_that_of_the_definitions()
    ensures { LONGEST_PATH ≡ longest_path }
{}
