/// Some places of a clause: those from one on, and before another.
#[derive(Clone, Copy)]
pub struct Places {
    pub from: usize,
    pub to: usize,
}
