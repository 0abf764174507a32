/// An object of a file, its partner in the other file, and how many declarations of its name stand before its own.
#[derive(Clone, Copy, Debug, PartialEq, Eq)]
pub struct Found {
    pub object: u32,
    pub partner: Option<u32>,
    pub declaration: u32,
}
