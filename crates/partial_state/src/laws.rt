//! Laws: what the constant means. A law is proved where its function is: there is nothing to run.

ghost use Rattle.std.specs.Prelude.{◌≡◌};
ghost use Rattle.partial_model.specs.Recording.{most_reads};

use crate::ops::MOST_READS;

/// The constant is the number of the definition.
pub fn most_reads_are_those_of_the_definition()
    ensures { MOST_READS ≡ most_reads }
{}
