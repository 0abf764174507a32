//! What reads and writes at spots stand for, as laws: functions without a body.

ghost use Rattle.sym_places.specs.Reads.{ReadLaw};
ghost use Rattle.sym_places.specs.Writes.{WriteLaw};

/// A read has the value or the trap of the meaning.
pub fn read()
    ensures { ReadLaw }
{}

/// A write has the state or the trap of the meaning.
pub fn write()
    ensures { WriteLaw }
{}
