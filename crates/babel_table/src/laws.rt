//! Laws of the definitions.
ghost use Rattle.babel_table.specs.LastTold.{HoldIsLast, PlainIsLast};
ghost use Rattle.babel_table.specs.OneOutcome.{FaultIsOne, FaultIsOfOctets, FaultStays, TableIsOne};
ghost use Rattle.babel_table.specs.OneOutcome.{HopsFit, KeysNeedMemory, RoutesNeedMemory};
ghost use Rattle.babel_table.specs.Words.{WordsAreHeld};

/// A dump has at most one fault.
pub fn fault_is_one()
    ensures { FaultIsOne }
{}

/// A dump has at most one table, rows and report.
pub fn table_is_one()
    ensures { TableIsOne }
{}

/// In a dump's table each route has a next hop of its key's family, or, where address encoding 4 is
/// read, of IPv6 for a key of IPv4.
pub fn hops_fit()
    ensures { HopsFit }
{}

/// A dump's fault is never `TooManyPairs`, which is about a canonical form, nor `Memory`, which is
/// about a run.
pub fn fault_is_of_octets()
    ensures { FaultIsOfOctets }
{}

/// A fault other than `Truncated` stays that of the dump whatever octets follow.
pub fn fault_stays()
    ensures { FaultStays }
{}

/// Only what may add a row needs memory: an announcement, and in mode Hold also a retraction of one
/// key.
pub fn rows_need_memory()
    ensures plain { RoutesNeedMemory }
    ensures hold { KeysNeedMemory }
{}

/// What is left of the words that are kept is what is held at the moment.
pub fn words_are_held()
    ensures { WordsAreHeld }
{}

/// In mode Plain a route is held at a moment where it was announced last and has not expired.
pub fn plain_is_last()
    ensures { PlainIsLast }
{}

/// In mode Hold a route is held at a moment where it was announced last and has not expired, and a
/// key is gone where something that was said of it was gone when the next came, or at the moment.
pub fn hold_is_last()
    ensures { HoldIsLast }
{}
