//! Where the fault stands for which `check` refuses a workflow with its feeds.

use crate::inputs::CheckInputs;
use check_said::place_of;
use filter_rule::Plan;
use printing::{Out, put_all};
use shown_text::shown;
use source_feed::{Feed, FeedFault};
use std::alloc::{AllocError, Global};
use std::sync::Arc;
use vrepl_choices::ReportForm;
use vrepl_main::{GivenFeed, given_feeds};
use workflow_places::place_of as workflow_place;

/// The name of a stream's file.
fn file_name<'f>(files: &[&'f str], i: usize) -> &'f str {
    match files.get(i) {
        None => "",
        Some(file) => *file,
    }
}

/// The place of a stream's fault.
fn stream_place(
    alloc: Global,
    i: usize,
    file: &str,
    place: &str,
) -> Result<Option<String>, AllocError> {
    let file = shown(alloc, file.as_bytes())?;
    let text = format!(in alloc; "stream {i} file {file} {place}")?;
    Ok(Some(text))
}

/// The place of the fault for which a stream's feed is refused.
fn feed_place(
    alloc: Global,
    i: usize,
    file: &str,
    plan: &Plan,
    feed: &[u8],
    fault: FeedFault,
) -> Result<Option<String>, AllocError> {
    match place_of(alloc, plan, feed, fault) {
        Ok(Some(place)) => stream_place(alloc, i, file, &place),
        _ => Ok(None),
    }
}

/// The place of the first fault for which a feed is refused.
fn feeds_place(
    alloc: Global,
    files: &[&str],
    plans: &[Arc<Plan>],
    given: &[GivenFeed<'_>],
) -> Result<Option<String>, AllocError> {
    for i in 0..plans.len() {
        let Some(feed) = given.get(i) else {
            return Ok(None);
        };
        let Some(bytes) = feed.bytes() else {
            return Ok(None);
        };
        if let Err(fault) = Feed::open(alloc, bytes, &plans[i]) {
            return feed_place(alloc, i, file_name(files, i), &plans[i], bytes, fault);
        }
    }
    Ok(None)
}

/// The place of the fault for which a workflow with its feeds is refused, if it has one.
fn place_text(alloc: Global, inputs: &CheckInputs<'_, '_>) -> Result<Option<String>, AllocError> {
    let plans = match Plan::read_all(alloc, &inputs.workflow) {
        Ok(plans) => plans,
        Err(fault) => return workflow_place(alloc, &inputs.workflow, &fault),
    };
    if plans.len() != inputs.feeds.len() {
        return Ok(None);
    }
    let given = given_feeds(alloc, inputs.feed_form, &inputs.feeds)?;
    feeds_place(alloc, inputs.files, &plans, &given)
}

/// Where the fault stands, for a refusal that is told as JSON; nothing where it is told as text, or where memory is wanting.
pub(crate) fn place_as_json(alloc: Global, inputs: &CheckInputs<'_, '_>) -> Option<String> {
    match inputs.report_form {
        ReportForm::Json => place_text(alloc, inputs).ok()?,
        ReportForm::Lines => None,
    }
}

/// Tells on `err`, behind the line of a refusal that is told as text, where the fault stands, in a line that begins with
/// `place `: of a workflow file the path, or of what is no JSON line and column, and what was expected; of a feed with a
/// broken message, an event that isn't read or a FIELD that differs the stream, its file, the message, its first
/// byte, and how many whole groups stand before it. Tells nothing else, and nothing where memory is wanting.
pub fn print_place<E: Out>(alloc: Global, inputs: &CheckInputs<'_, '_>, err: &mut E) {
    if let ReportForm::Json = inputs.report_form {
        return;
    }
    let Ok(Some(place)) = place_text(alloc, inputs) else {
        return;
    };
    if let Ok(line) = format!(in alloc; "place {place}\n") {
        let _ = put_all(err, line.as_bytes());
    }
}
