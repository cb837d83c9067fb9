// What ties the definitions of feeding to those of reading.
ghost use Rattle.tlv_frame.specs.Cuts.{CutsAreOneReading, WaitsWithRoom};

/// However a file is cut into pieces, and however often a feed is asked between them, it hands out
/// the headers and frames that the definitions read in the whole file, and refuses what they
/// refuse. Where it waits for more bytes it has room for them.
pub fn cuts_are_one_reading()
    ensures cuts { CutsAreOneReading }
    ensures room { WaitsWithRoom }
{}
