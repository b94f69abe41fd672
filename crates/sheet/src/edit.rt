// A call that may change a sheet, with its word.
#[derive(Clone, Copy, PartialEq, Eq, Debug)]
pub enum Edit {
    // add what the word says at the end
    Enter(u32),
    // remove the held pair that the word says
    Strike(u32),
}
