// Laws that tie what `export` promises to files. The contract of a function that does nothing.
ghost use Rattle.send_model.specs.ExportPromises.{NamedExportHolds, FilesArePromisedTheSame};

/// What is exported of files whose parts have other names is read as their commands with
/// separators, and every store that finds the same subvolumes outside, and takes the files with
/// these names, takes it and comes to the same state, as the real receiver does; and what the
/// headline promises of a stream that was composed, it promises of what is exported where these are
/// its commands. Of files without names this is what `export` promises of files.
pub fn exports_hold()
    ensures named { NamedExportHolds }
    ensures files { FilesArePromisedTheSame }
{}
