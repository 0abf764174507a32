use bit_words::Word;

/// A word, or a pointer as an object word and a cell word of kind `u32`.
/// Object 0 with cell 0 is null, object k + 1 is the object k, and object 0 with another cell stands for no value.
#[derive(Drop)]
pub enum SymValue {
    Word(Word),
    Pointer(Word, Word),
}
