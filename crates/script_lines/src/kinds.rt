/// What is wrong with a line of a script.
#[derive(Clone, Copy, Debug, PartialEq, Eq)]
pub enum ScriptKind {
    /// A word may not stand in its place, a field is missing, or a field is left over.
    Word,
    /// A field is not a number, or its number is out of range.
    Number,
    /// The unit was not declared.
    UnitUnknown,
    /// The unit was declared before.
    UnitTwice,
    /// The id was used before.
    IdTwice,
    /// The count of blocks is not between 1 and 127.
    Count,
    /// The data of a write are not spelled as the grammar requires.
    Data,
    /// The places of a noise are not 1 to 64 numbers up to 4127 in strictly ascending order.
    Bits,
    /// A unit is declared after a line with another word.
    LateUnit,
    /// The line is line number 1,000,001, or brings request number 65,537 or noise number 4,097.
    TooMany,
    /// The line has more than 140,000 bytes.
    LineLong,
    /// The script has more than 16 MiB.
    ScriptLong,
}
