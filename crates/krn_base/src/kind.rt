/// The kind of a word: a number from -2^63 to 2^63-1, or a truth value, which is 0 or 1.
#[derive(Clone, Copy, Debug, PartialEq, Eq)]
pub enum Kind {
    Int64,
    Bool,
}

/// The type of a parameter of an exported function.
#[derive(Clone, Copy, Debug, PartialEq, Eq)]
pub enum ParamType {
    /// One word of this kind.
    Scalar(Kind),
    /// An array of this kind and rank whose places are consecutive and rising.
    Flat(Kind, u8),
    /// An array of this kind and rank; any view serves.
    Strided(Kind, u8),
}
