ghost use Rattle.std.specs.Prelude.{◌≡◌, ℕ, List};
ghost use Rattle.view_places.specs.declared.shape.Array.{Array};
ghost use Rattle.np_file.specs.Npy.{IsNpy, NpyRefusal, IsWritable};
ghost use Rattle.np_file.specs.declared.fault.NpyFault.{NpyFault};

/// What holds of all array files: bytes are the file of one array at most, and of none where they are refused; and
/// what is read
/// can be written.
pub fn file_laws()
    ensures one_array { (bytes : List ℕ) (a b : Array) → IsNpy bytes a → IsNpy bytes b → a ≡ b }
    ensures not_both { (bytes : List ℕ) (a : Array) (f : NpyFault) → IsNpy bytes a → NpyRefusal bytes f → ⊥ }
    ensures writable { (bytes : List ℕ) (a : Array) → IsNpy bytes a → IsWritable a }
{}
