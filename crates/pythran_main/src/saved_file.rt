ghost use Rattle.std.specs.Prelude.{◌≡◌, ◌<◌, IfOk, map, length};
ghost use Rattle.std.specs.List.{All};
ghost use Rattle.std.specs.Str.{IsUtf8};
ghost use Rattle.call_binding.specs.Fitting.{IsSave};
ghost use Rattle.call_binding.specs.Sound.{IsArray};
ghost use Rattle.np_file.specs.Npy.{IsWritable};
ghost use Rattle.pythran_main.specs.Answer as spec;
ghost use Rattle.pythran_main.specs.Answer.{saved_of};
ghost use Rattle.pythran_main.specs.Steps.{save_of, KeepsBuffers};

use call_binding::Save;
use krn_base::{NoMemory, Seq};
use np_file::write_npy;
use std::alloc::{AllocError, Global};
use std::str;
use view_places::Array;

/// A file that is stored once the report is out.
#[derive(Debug, PartialEq, Eq, Drop)]
pub struct SavedFile {
    pub path: String,
    pub bytes: Seq<u8>,
}

/// The arrays that buffers hold in the end: each in the kind and the shape that it was given. Words are moved.
fn final_arrays(
    alloc: Global,
    arrays: Seq<Array>,
    words: Seq<Seq<i64>>,
) -> Result<Vec<Array>, AllocError>
    ensures { IfOk result (λ finals. finals.items ≡ spec.final_arrays arrays words) }
{
    let mut finals = Vec::new(alloc);
    for (array, words) in arrays.into_vec().into_iter().zip(words.into_vec()) {
        finals.push(Array {
            kind: array.kind,
            shape: array.shape,
            words,
        })?;
    }
    Ok(finals)
}

/// UTF-8 as text.
fn as_text(bytes: &[u8]) -> &str
    requires { IsUtf8 bytes.now }
    ensures { result.now ≡ bytes.now }
{
    match str::from_utf8(bytes) {
        Ok(text) => text,
        Err(_) => unreachable!(),
    }
}

/// The array file of a saved buffer.
fn saved_file(alloc: Global, arrays: &[Array], save: &Save) -> Result<SavedFile, NoMemory>
    requires arrays { All IsWritable arrays.now }
    requires save { IsSave arrays.now save.now }
    ensures { IfOk result (λ file. save_of file ≡ saved_of arrays.now save.now) }
{
    let bytes = write_npy(alloc, &arrays[save.buffer as usize])?;
    Ok(SavedFile {
        path: String::from_str(alloc, as_text(save.path.as_slice()))?,
        bytes: Seq::from_vec(bytes),
    })
}

/// The array files of the saved buffers, in their order.
fn saved_files(alloc: Global, arrays: &[Array], saves: &[Save]) -> Result<Seq<SavedFile>, NoMemory>
    requires arrays { All IsWritable arrays.now }
    requires saves { All (IsSave arrays.now) saves.now }
    ensures { IfOk result (λ files. map save_of files ≡ map (saved_of arrays.now) saves.now) }
{
    let mut files = Vec::new(alloc);
    for save in saves {
        if let Err(error) = files.push(saved_file(alloc, arrays, save)?) {
            return Err(AllocError::from(error).into());
        }
    }
    Ok(Seq::from_vec(files))
}

/// The files of the saved buffers of a run, from the call's buffers and the words that they hold in the end. Words are
/// moved, and the words of the call are let go before the first file is made.
pub fn run_files(
    alloc: Global,
    arrays: Seq<Array>,
    words: Seq<Seq<i64>>,
    saves: &[Save],
) -> Result<Seq<SavedFile>, NoMemory>
    requires arrays { All IsArray arrays }
    requires kept { KeepsBuffers arrays words }
    requires saves { All (IsSave arrays) saves.now }
    ensures { IfOk result (λ files. map save_of files ≡ map (saved_of (spec.final_arrays arrays words)) saves.now) }
{
    let finals = final_arrays(alloc, arrays, words)?;
    saved_files(alloc, finals.as_slice(), saves)
}
