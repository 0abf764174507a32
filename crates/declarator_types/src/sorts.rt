/// What is declared.
#[derive(Clone, Copy, Debug, PartialEq, Eq)]
pub enum Sort {
    Typedef,
    /// An object of the file.
    Object,
    Field,
    Local,
    Parameter,
}
