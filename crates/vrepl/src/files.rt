//! Commands over files of one kind: their inputs, and a refusal that names one of them.

ghost use Rattle.std.specs.Prelude.{◌≡◌, map, IfErr, IfOk};
ghost use Rattle.vrepl_main.specs.InputList.{bytes_of};
ghost use Rattle.vrepl_main.specs.Inputs.{AreGiven, IsUnreadAmong};
ghost use Rattle.vrepl_main.specs.declared.input.InputName.TheVariants.{File};

use printing::{Out, put_all};
use shown_text::shown;
use std::alloc::{AllocError, Global};
use vrepl_main::{CommandRefusal, InputName, Source, Untold, read_inputs};

/// Files with their names.
#[derive(Drop)]
pub(crate) struct FileInputs<'n, 'w> {
    /// The names.
    pub(crate) names: &'n [&'w str],
    /// What the files have, in the order of the names.
    pub(crate) texts: Vec<Vec<u8>>,
}

/// Files as inputs.
fn input_names<'w>(alloc: Global, files: &[&'w str]) -> Result<Vec<InputName<'w>>, AllocError>
    ensures { IfOk result (λ names. names.items ≡ map File files.now) }
{
    let mut names = Vec::with_capacity(alloc, files.len())?;
    for file in files {
        names.push(InputName::File(*file))?;
    }
    Ok(names)
}

/// Reads files in their order.
pub(crate) fn read_files<'n, 'w, R: Source + AllocGlobal>(
    rt: &R,
    names: &'n [&'w str],
) -> Result<FileInputs<'n, 'w>, CommandRefusal<'w>>
    ensures asked { IfOk result (λ inputs. inputs.names.now ≡ names.entry.now) }
    // Each is read under its own name: as many texts as names, in their order.
    ensures given { IfOk result (λ inputs. AreGiven (R.gives rt.now) (map File names.entry.now) (bytes_of inputs.texts.items)) }
    ensures unread { IfErr result (IsUnreadAmong (map File names.entry.now)) }
{
    let inputs = input_names(rt.alloc(), names)?;
    let texts = read_inputs(rt, &Untold, &inputs)?;
    Ok(FileInputs { names, texts })
}

/// The place of a refusal that is of a file. None where memory is wanting.
pub(crate) fn file_place(alloc: Global, names: &[&str], file: usize) -> Option<String> {
    let name = names.get(file)?;
    let name = shown(alloc, name.as_bytes()).ok()?;
    format!(in alloc; "file {name}").ok()
}

/// Tells on `err`, behind the line of a refusal, which file it is of. Tells nothing where memory is wanting.
pub(crate) fn print_file<E: Out>(alloc: Global, names: &[&str], file: usize, err: &mut E) {
    let Some(place) = file_place(alloc, names, file) else {
        return;
    };
    if let Ok(line) = format!(in alloc; "place {place}\n") {
        let _ = put_all(err, line.as_bytes());
    }
}
