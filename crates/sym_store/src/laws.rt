//! What merged values and stores stand for, as laws: functions without a body.

ghost use Rattle.sym_store.specs.Merging.{AlikeLaw, MergeLaw};
ghost use Rattle.sym_store.specs.Stores.{MergeStoreLaw, RegisterLaw, SetLaidLaw, SetLaw, StoresAlikeLaw};

/// Values that are merged under a literal are the first where it is true, and else the second.
pub fn merging()
    ensures { MergeLaw }
{}

/// Values laid out by the same shapes are alike.
pub fn alike()
    ensures { AlikeLaw }
{}

/// The value of a register is what the state's register holds.
pub fn register()
    ensures { RegisterLaw }
{}

/// A store with a register set stands for the state with that register set.
pub fn set()
    ensures { SetLaw }
{}

/// A value of the register's shape keeps the layout.
pub fn set_laid()
    ensures { SetLaidLaw }
{}

/// Stores that are merged under a literal stand for what the first does where it is true, and else for what the second does.
pub fn stores_merging()
    ensures { MergeStoreLaw }
{}

/// Stores of one layout can be merged.
pub fn stores_alike()
    ensures { StoresAlikeLaw }
{}
