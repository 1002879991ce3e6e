/// How a nest ended.
#[derive(Clone, Copy, Debug, PartialEq, Eq)]
pub enum Nested {
    /// Each element was stored as soon as it was made.
    Direct,
    /// All elements were made before the first was stored.
    Temporary,
    /// A leaf doesn't spread to the target's shape.
    Unfit,
}
