// What the fates of a part mean.
ghost use Rattle.squash_log.specs.Resolved.{FatesSquashTheSame};

/// The fates of all that the commands of one part did are those by which the commands become the
/// squashed ones.
pub fn fates_squash()
    ensures { FatesSquashTheSame }
{}
