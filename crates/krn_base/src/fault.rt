ghost use Rattle.std.specs.Prelude.{◌≡◌};

/// What ends a kernel before it returns.
#[derive(Clone, Copy, Debug, PartialEq, Eq)]
pub enum Fault {
    /// Shapes that don't fit, a step of 0, a negative shift count or dimension, a minimum of nothing.
    ValueError,
    /// A subscript outside its dimension.
    IndexError,
    /// A scalar division by 0.
    ZeroDivisionError,
    /// An extent or a number of elements above 2^22. Python has no such fault; it is this project's own.
    SizeLimit,
}

impl Fault {
    ghost use Rattle.krn_base.specs.Fault.{fault_name};

    /// The fault's name as a report prints it, in ASCII.
    pub fn name(self) -> &'static str
        ensures { result.now ≡ fault_name self }
    {
        match self {
            Fault::ValueError => "ValueError",
            Fault::IndexError => "IndexError",
            Fault::ZeroDivisionError => "ZeroDivisionError",
            Fault::SizeLimit => "SizeLimit",
        }
    }
}
