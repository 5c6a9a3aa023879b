/// Why a process ended before the end of its input.
#[derive(Clone, Copy, Debug, Drop)]
pub enum Stop {
    /// An item of the input says that it has so many bytes, which is more than `MOST_BYTES`.
    TooLong(u32),
    /// The input ends within an item.
    Cut,
    /// The input cannot be read.
    Input,
    /// The journal cannot be written.
    Unstored,
    /// The output, or the standard error, cannot be written.
    Output,
    /// There was no memory.
    NoMemory,
}
