//! Laws of tapes and of their bytes. Nothing here is called: each function is a law of the definitions in `specs`, which is its contract.
ghost use Rattle.fx_tape.specs.Laws.{NeverBoth, OnePlace, OneTape, OthersAreNot, WrittenIsRead};

/// What is written of a tape in range is read as that tape, unless memory runs out.
pub fn written_is_read()
    ensures { WrittenIsRead }
{}

/// No other bytes are read as it.
pub fn others_are_not()
    ensures { OthersAreNot }
{}

/// Bytes are one tape at most.
pub fn one_tape()
    ensures { OneTape }
{}

/// Bytes stop being a tape at one place at most.
pub fn one_place()
    ensures { OnePlace }
{}

/// Bytes that are a tape stop nowhere.
pub fn never_both()
    ensures { NeverBoth }
{}
