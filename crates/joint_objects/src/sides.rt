use sqlite_items::Items;

/// The functions that are paired: for each function of either file its partner in the other one, if it has one.
#[derive(Drop)]
pub struct FunctionPartners {
    pub of_old: Items<Option<u32>>,
    pub of_new: Items<Option<u32>>,
}
