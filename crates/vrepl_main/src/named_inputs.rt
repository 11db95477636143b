//! The inputs of the commands that have several, each by its name, read in the order of their command.

ghost use Rattle.std.specs.Prelude.{◌≡◌, ◌∷◌, ◌++◌, [], length, map, IfErr, IfOk};
ghost use Rattle.vrepl_main.specs.InputList.{bytes_of};
ghost use Rattle.vrepl_main.specs.Inputs.{AreGiven, IsUnreadAmong};
ghost use Rattle.vrepl_main.specs.declared.input.InputName.TheVariants.{File, Standard};

use crate::given::GivenFeed;
use crate::input::{InputName, read_input, read_inputs};
use crate::input_list::{file_names, run_inputs};
use crate::progress::{Reading, Untold};
use crate::refusal::CommandRefusal;
use crate::source::Source;
use apply_core::Policy;
use vrepl_choices::{FeedForm, Threading, Until};

/// How streams are run.
#[derive(Clone, Copy)]
pub struct RunCourse {
    /// One after another, or in threads.
    pub threading: Threading,
    /// In what portions.
    pub policy: Policy,
}

/// The inputs of `run`.
#[derive(Drop)]
pub struct RunInputs<'u, 'w> {
    /// How the streams are run.
    pub course: RunCourse,
    /// How the feeds are given.
    pub feed_form: FeedForm,
    /// The workflow's file.
    pub workflow: Vec<u8>,
    /// The feeds, one in the order of the streams each.
    pub feeds: Vec<Vec<u8>>,
    /// Up to which positions the feeds are read; none for whole ones.
    pub until: &'u [Until<'w>],
}

/// The inputs of `step` and of `save`.
#[derive(Drop)]
pub struct Inputs {
    /// How the feeds are given.
    pub feed_form: FeedForm,
    /// The workflow's file.
    pub workflow: Vec<u8>,
    /// The feeds, one in the order of the streams each.
    pub feeds: Vec<Vec<u8>>,
    /// The script.
    pub script: Vec<u8>,
}

/// The inputs of `resume`.
#[derive(Drop)]
pub struct ResumeInputs {
    /// The checkpoint, never hexadecimal text.
    pub checkpoint: Vec<u8>,
    /// The others, which are those of `step`.
    pub step: Inputs,
}

/// The inputs of `follow`, of whose feeds the bytes are given, since the board behind them lies over these.
#[derive(Clone, Copy)]
pub struct FollowInputs<'h, 'f, 'w> {
    /// How the streams are run.
    pub course: RunCourse,
    /// The checkpoint that is moved on, never hexadecimal text; none for one from the beginning.
    pub checkpoint: Option<&'h [u8]>,
    /// The workflow's file.
    pub workflow: &'h [u8],
    /// The bytes of the feeds, one in the order of the streams each.
    pub feeds: &'h [GivenFeed<'f>],
    /// Up to which positions the feeds are read; none for whole ones.
    pub until: &'h [Until<'w>],
}

/// The inputs of `join`.
#[derive(Drop)]
pub struct JoinInputs {
    /// How the feeds are given.
    pub feed_form: FeedForm,
    /// The workflow's file.
    pub workflow: Vec<u8>,
    /// The one checkpoint, never hexadecimal text.
    pub one: Vec<u8>,
    /// The checkpoints that are joined to it, in this order.
    pub others: Vec<Vec<u8>>,
    /// The feeds, one in the order of the streams each.
    pub feeds: Vec<Vec<u8>>,
}

/// The files of `join`.
#[derive(Clone, Copy)]
pub struct JoinFiles<'n, 'w> {
    /// The workflow's.
    pub workflow: &'w str,
    /// The one checkpoint's.
    pub one: &'w str,
    /// The other checkpoint's.
    pub other: &'w str,
    /// Those of further checkpoints.
    pub more: &'n [&'w str],
    /// The feeds', in the order of the streams.
    pub feeds: &'n [&'w str],
}

/// Reads the inputs of `run`: the workflow's file, and the feeds' files. The first that can't be read is refused, and
/// then no later one is asked for.
pub fn read_run<'u, 'w, R: Source + AllocGlobal>(
    rt: &R,
    course: RunCourse,
    feed_form: FeedForm,
    workflow: &'w str,
    feeds: &[&'w str],
    until: &'u [Until<'w>],
) -> Result<RunInputs<'u, 'w>, CommandRefusal<'w>>
    ensures course { IfOk result (λ inputs. inputs.course ≡ course) }
    ensures feed_form { IfOk result (λ inputs. inputs.feed_form ≡ feed_form) }
    ensures until { IfOk result (λ inputs. inputs.until.now ≡ until.entry.now) }
    // Each is read under its own name: as many feeds as words, in their order.
    ensures workflow { IfOk result (λ inputs. R.gives rt.now (File workflow.entry) inputs.workflow.items) }
    ensures feeds { IfOk result (λ inputs. AreGiven (R.gives rt.now) (map File feeds.now) (bytes_of inputs.feeds.items)) }
    ensures refused { IfErr result (IsUnreadAmong (File workflow.entry ∷ map File feeds.now)) }
{
    let plans = read_input(rt, &Untold, InputName::File(workflow))?;
    let texts = read_files(rt, &Untold, feeds)?;
    Ok(RunInputs {
        course,
        feed_form,
        workflow: plans,
        feeds: texts,
        until,
    })
}

/// Reads the inputs of `step` and of `save`: the workflow's file, the feeds' files, and the script from standard
/// input. The first that can't be read is refused. `told` is told of what is read.
pub fn read_step<'w, R: Source + AllocGlobal, G: Reading>(
    rt: &R,
    told: &G,
    feed_form: FeedForm,
    workflow: &'w str,
    feeds: &[&'w str],
) -> Result<Inputs, CommandRefusal<'w>>
    ensures feed_form { IfOk result (λ inputs. inputs.feed_form ≡ feed_form) }
    // Each is read under its own name: as many feeds as words, in their order.
    ensures workflow { IfOk result (λ inputs. R.gives rt.now (File workflow.entry) inputs.workflow.items) }
    ensures feeds { IfOk result (λ inputs. AreGiven (R.gives rt.now) (map File feeds.now) (bytes_of inputs.feeds.items)) }
    ensures script { IfOk result (λ inputs. R.gives rt.now Standard inputs.script.items) }
    ensures refused { IfErr result (IsUnreadAmong (File workflow.entry ∷ (map File feeds.now ++ Standard ∷ []))) }
{
    let plans = read_input(rt, told, InputName::File(workflow))?;
    let texts = read_files(rt, told, feeds)?;
    let script = read_input(rt, told, InputName::Standard)?;
    Ok(Inputs {
        feed_form,
        workflow: plans,
        feeds: texts,
        script,
    })
}

/// Reads the inputs of `resume`: the checkpoint's file, and then those of `step`.
pub fn read_resume<'w, R: Source + AllocGlobal, G: Reading>(
    rt: &R,
    told: &G,
    feed_form: FeedForm,
    checkpoint: &'w str,
    workflow: &'w str,
    feeds: &[&'w str],
) -> Result<ResumeInputs, CommandRefusal<'w>>
    ensures feed_form { IfOk result (λ inputs. inputs.step.feed_form ≡ feed_form) }
    // Each is read under its own name: as many feeds as words, in their order.
    ensures checkpoint { IfOk result (λ inputs. R.gives rt.now (File checkpoint.entry) inputs.checkpoint.items) }
    ensures workflow { IfOk result (λ inputs. R.gives rt.now (File workflow.entry) inputs.step.workflow.items) }
    ensures feeds { IfOk result (λ inputs. AreGiven (R.gives rt.now) (map File feeds.now) (bytes_of inputs.step.feeds.items)) }
    ensures script { IfOk result (λ inputs. R.gives rt.now Standard inputs.step.script.items) }
    ensures refused { IfErr result (IsUnreadAmong (File checkpoint.entry ∷ File workflow.entry ∷ (map File feeds.now ++ Standard ∷ []))) }
{
    let saved = read_input(rt, told, InputName::File(checkpoint))?;
    let step = read_step(rt, told, feed_form, workflow, feeds)?;
    Ok(ResumeInputs {
        checkpoint: saved,
        step,
    })
}

/// Reads the inputs of `join`: the workflow's file, the checkpoints' files in their order, and the feeds' files.
pub fn read_join<'w, R: Source + AllocGlobal, G: Reading>(
    rt: &R,
    told: &G,
    feed_form: FeedForm,
    files: &JoinFiles<'_, 'w>,
) -> Result<JoinInputs, CommandRefusal<'w>>
    ensures feed_form { IfOk result (λ inputs. inputs.feed_form ≡ feed_form) }
    // Each is read under its own name: as many feeds and as many further checkpoints as words, in their order.
    ensures workflow { IfOk result (λ inputs. R.gives rt.now (File files.now.workflow) inputs.workflow.items) }
    ensures one { IfOk result (λ inputs. R.gives rt.now (File files.now.one) inputs.one.items) }
    ensures others { IfOk result (λ inputs. AreGiven (R.gives rt.now) (File files.now.other ∷ map File files.now.more.now) (bytes_of inputs.others.items)) }
    ensures feeds { IfOk result (λ inputs. AreGiven (R.gives rt.now) (map File files.now.feeds.now) (bytes_of inputs.feeds.items)) }
    ensures refused { IfErr result (IsUnreadAmong (File files.now.workflow ∷ File files.now.one ∷ File files.now.other ∷ (map File files.now.more.now ++ map File files.now.feeds.now))) }
{
    let workflow = read_input(rt, told, InputName::File(files.workflow))?;
    let one = read_input(rt, told, InputName::File(files.one))?;
    let names = run_inputs(rt.alloc(), files.other, files.more)?;
    let others = read_inputs(rt, told, &names)?;
    let feeds = read_files(rt, told, files.feeds)?;
    Ok(JoinInputs {
        feed_form,
        workflow,
        one,
        others,
        feeds,
    })
}

/// The bytes of files, read one after another, as `read_inputs` reads them.
fn read_files<'w, R: Source + AllocGlobal, G: Reading>(
    rt: &R,
    told: &G,
    files: &[&'w str],
) -> Result<Vec<Vec<u8>>, CommandRefusal<'w>>
    ensures all { IfOk result (λ read. length read.items ≡ length files.now) }
    ensures given { IfOk result (λ read. AreGiven (R.gives rt.now) (map File files.now) (bytes_of read.items)) }
    ensures refused { IfErr result (IsUnreadAmong (map File files.now)) }
{
    let names = file_names(rt.alloc(), files)?;
    read_inputs(rt, told, &names)
}
