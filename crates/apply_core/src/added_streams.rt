//! The streams of a board with more tables, by feeds that go on from them.

ghost use Rattle.std.specs.Prelude.{◌≡◌, ◌↔◌, ◌≤◌, ◌++◌, ◌∷◌, [], length, map, IsTrue, IfOk, IfErr, OnOk};
ghost use Rattle.std.specs.Arc.{arc_value};
ghost use Rattle.filter_rule.specs.Extending.{IsExtended};
ghost use Rattle.board_laws.specs.declared.add_fault.AddFault.TheVariants.{Memory};
ghost use Rattle.board_laws.specs.Extended.{marks_of_more};
ghost use Rattle.apply_core.specs.Private.Adding.{fault_of_feed, IsGroupAgain, IsNotAgain, AreAgain, IsStoppedBy, IsExtendedBy, FeedsExtend, AreExtendedUpTo, AreStopped};

use crate::stream::{Stream, cursor_behind};
use board_laws::{AddFault, extended_streams_are_sound};
use pk_copy::{CopyState, Mark};
use source_feed::{Feed, FeedFault, Image, Prepared};
use std::alloc::{AllocError, Global};
use std::sync::Arc;

/// The marks of before, behind which further tables wait.
fn more_marks(alloc: Global, marks: &CopyState, tables: u8) -> Result<CopyState, AllocError>
    requires { marks.now.tables ≤ tables }
    ensures { IfOk result (λ more. more ≡ marks_of_more tables marks.now) }
{
    let mut more = CopyState::new(tables);
    let done = marks.done();
    let current = marks.mark(done);
    for _t in 0..done {
        more.finish_table();
    }
    match current {
        Mark::Waiting => Ok(more),
        Mark::Upto(last) => {
            let key = last.try_clone(alloc)?;
            more.move_to(key);
            Ok(more)
        }
        Mark::Done => Ok(more),
    }
}

/// The same of a stream's marks.
fn marks_with(alloc: Global, stream: &Stream<'_>, tables: u8) -> Result<CopyState, AllocError>
    requires { stream.now.marks.tables ≤ tables }
    ensures { IfOk result (λ more. more ≡ marks_of_more tables stream.now.marks) }
{
    more_marks(alloc, &stream.marks, tables)
}

/// How many groups a stream has applied.
fn applied_of(stream: &Stream<'_>) -> u32
    ensures { result ≡ stream.now.applied }
{
    stream.cursor().applied()
}

/// How many tables a stream has.
fn tables_of(stream: &Stream<'_>) -> u8
    ensures { result ≡ length stream.now.plan.tables }
{
    stream.is_sound();
    stream.cursor().tables()
}

/// How many tables a feed's plan has.
fn tables_under(feed: &Feed<'_>) -> u8
    ensures { result ≡ length feed.now.plan.tables }
{
    feed.plan().tables().len() as u8
}

/// Whether a feed has at least so many groups.
fn has_enough(feed: &Feed<'_>, applied: u32) -> bool
    ensures { IsTrue result ↔ (applied ≤ length feed.now.groups) }
{
    feed.len() >= applied as usize
}

/// Why a group of a feed isn't prepared, as a fault: it isn't sound, or memory is wanting.
fn fault_of(fault: FeedFault) -> AddFault
    ensures { result ≡ fault_of_feed fault }
{
    match fault {
        FeedFault::Memory => AddFault::Memory,
        fault => AddFault::Unsound(fault),
    }
}

/// Group `number` of a feed, prepared, which is the old one on the first so many tables. Refused 90 where it isn't
/// sound and 113 where it is another one. Any other error is want of memory, for a sound group.
fn group_again<'h>(
    alloc: Global,
    feed: &Feed<'h>,
    old: &Prepared<'_>,
    number: u32,
    tables: u8,
    s: u8,
) -> Result<Arc<Prepared<'h>>, AddFault>
    ensures ok { IfOk result (λ group. IsGroupAgain tables feed.now old.now number (arc_value group)) }
    ensures err { IfErr result (IsNotAgain tables feed.now old.now number s) }
{
    match feed.prepare(alloc, number) {
        Err(fault) => Err(fault_of(fault)),
        Ok(group) => {
            if !old.same_on(&group, tables) {
                return Err(AddFault::HistoriesDiffer(s));
            }
            Ok(group)
        }
    }
}

/// Puts a group behind the others.
fn push_group<'h>(
    groups: &mut Vec<Arc<Prepared<'h>>>,
    group: Arc<Prepared<'h>>,
) -> Result<(), AddFault>
    ensures ok { OnOk result (groups.new.items ≡ groups.old.items ++ group.entry ∷ []) }
    ensures err { IfErr result (λ fault. fault ≡ Memory) }
{
    if groups.push(group).is_err() {
        return Err(AddFault::Memory);
    }
    Ok(())
}

/// The first groups of a feed, prepared, as many as stream `s` has applied. Refused 113 where the feed has fewer,
/// and else for the first of them that isn't sound, 90, or another one on the stream's tables, 113. Any other error
/// is want of memory, before such a group.
fn groups_again<'h>(
    alloc: Global,
    stream: &Stream<'h>,
    feed: &Feed<'h>,
    s: u8,
) -> Result<Vec<Arc<Prepared<'h>>>, AddFault>
    ensures ok { IfOk result (λ groups. AreAgain feed.now stream.now stream.now.applied (map arc_value groups.items)) }
    ensures err { IfErr result (IsStoppedBy s feed.now stream.now) }
{
    stream.is_sound();
    let applied = applied_of(stream);
    if !has_enough(feed, applied) {
        return Err(AddFault::HistoriesDiffer(s));
    }
    let tables = tables_of(stream);
    let list = stream.list();
    let mut groups = Vec::new(alloc);
    for i in 0..applied {
        let group = group_again(alloc, feed, &list[i as usize], i + 1, tables, s)?;
        push_group(&mut groups, group)?;
    }
    Ok(groups)
}

/// Stream `s` with the tables of its feed's plan: the feed's first groups are read and applied, as many as before,
/// the new tables wait, and no snapshot is open. Refused 113 and 90 as above. Any other error is want of memory.
fn extended_stream<'h>(
    alloc: Global,
    stream: &Stream<'h>,
    feed: &Feed<'h>,
    s: u8,
) -> Result<Stream<'h>, AddFault>
    requires { IsExtended stream.now.plan feed.now.plan }
    ensures ok { IfOk result (IsExtendedBy feed.now stream.now) }
    ensures err { IfErr result (IsStoppedBy s feed.now stream.now) }
{
    extended_streams_are_sound();
    stream.is_sound();
    let list = groups_again(alloc, stream, feed, s)?;
    let plan = Arc::clone(feed.plan())?;
    let marks = marks_with(alloc, stream, tables_under(feed))?;
    let cursor = cursor_behind(applied_of(stream), &marks);
    Ok(Stream {
        plan,
        list,
        cursor,
        marks,
        image: Image::new(alloc),
        imaged: 0,
    })
}

/// Puts a stream behind the others.
fn push_stream<'h>(streams: &mut Vec<Stream<'h>>, stream: Stream<'h>) -> Result<(), AddFault>
    ensures ok { OnOk result (streams.new.items ≡ streams.old.items ++ stream.entry ∷ []) }
    ensures err { IfErr result (λ fault. fault ≡ Memory) }
{
    if streams.push(stream).is_err() {
        return Err(AddFault::Memory);
    }
    Ok(())
}

/// The streams with the tables of their feeds' plans. Refused 113 and 90 for the first stream whose feed doesn't go
/// on. Any other error is want of memory.
pub(crate) fn extended_streams<'h>(
    alloc: Global,
    streams: &[Stream<'h>],
    feeds: &[Feed<'h>],
) -> Result<Vec<Stream<'h>>, AddFault>
    requires count { length feeds.now ≡ length streams.now }
    requires few { length streams.now ≤ 64 }
    requires extend { FeedsExtend feeds.now streams.now }
    ensures ok { IfOk result (λ new. AreExtendedUpTo feeds.now streams.now (length streams.now) new.items) }
    ensures err { IfErr result (AreStopped feeds.now streams.now) }
{
    let mut extended = Vec::new(alloc);
    for s in 0..streams.len() {
        let stream = extended_stream(alloc, &streams[s], &feeds[s], s as u8)?;
        push_stream(&mut extended, stream)?;
    }
    Ok(extended)
}
