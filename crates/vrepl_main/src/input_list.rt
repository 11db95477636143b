//! Files as inputs, in order.

ghost use Rattle.std.specs.Prelude.{◌≡◌, ◌∷◌, map, IfOk};
ghost use Rattle.vrepl_main.specs.declared.input.InputName.TheVariants.{File};

use crate::input::InputName;
use std::alloc::{AllocError, Global};

/// Files as inputs.
pub(crate) fn file_names<'w>(
    alloc: Global,
    files: &[&'w str],
) -> Result<Vec<InputName<'w>>, AllocError>
    ensures { IfOk result (λ names. names.items ≡ map File files.now) }
{
    let mut names = Vec::with_capacity(alloc, files.len())?;
    for file in files {
        names.push(InputName::File(*file))?;
    }
    Ok(names)
}

/// A file, and others behind it: the workflow, and the feeds in their order.
pub fn run_inputs<'w>(
    alloc: Global,
    workflow: &'w str,
    feeds: &[&'w str],
) -> Result<Vec<InputName<'w>>, AllocError>
    ensures { IfOk result (λ names. names.items ≡ File workflow.entry ∷ map File feeds.now) }
{
    let mut names = file_names(alloc, feeds)?;
    names.insert(0, InputName::File(workflow))?;
    Ok(names)
}
