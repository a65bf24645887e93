//! Days from texts, for the other modules.

ghost use Rattle.std.specs.Prelude.{◌≡◌, IfOk};
ghost use Rattle.desk_data.specs.Situation.{fresh_day};
ghost use Rattle.output_texts.specs.Generated.{IsSize};

use super::texts::{TOLD, TOLD_LATER, WALKED};
use day_checks::can_add;
use desk_data::{Batch, Instance, NoMem};
use desk_folder::{File, MemFolder};
use desk_tasks::{InputKept, InputStory, read_kept};
use output_texts::generate;
use std::alloc::Global;
use std::test::Fail;

/// Files with their texts.
pub(super) type Texts<'a> = &'a [(File, &'a str)];

/// Puts files with their texts behind these.
fn push_texts(
    alloc: Global,
    inputs: &mut Vec<(File, Vec<u8>)>,
    texts: Texts<'_>,
) -> Result<(), NoMem> {
    for (file, text) in texts {
        let bytes = Vec::from_slice(alloc, text.as_bytes())?;
        inputs.push((*file, bytes))?;
    }
    Ok(())
}

/// A folder with these files; of several texts of one file the first counts.
fn folder_of(alloc: Global, changed: Texts<'_>, day: Texts<'_>) -> Result<MemFolder, NoMem> {
    let mut inputs = Vec::new(alloc);
    push_texts(alloc, &mut inputs, changed)?;
    push_texts(alloc, &mut inputs, day)?;
    Ok(MemFolder::new(inputs, Vec::new(alloc), Vec::new(alloc)))
}

/// What a folder has: a day before any batch, and its batches.
fn kept_in(alloc: Global, folder: &mut MemFolder) -> Result<InputKept, Fail>
    ensures { IfOk result (λ kept. kept.story.inst ≡ fresh_day kept.story.inst.parts) }
{
    match read_kept(alloc, folder) {
        Ok(kept) => Ok(kept),
        Err(_) => Err(Fail::new("the day is not read")),
    }
}

/// The day that a folder has, before any batch.
pub(super) fn day_in(alloc: Global, folder: &mut MemFolder) -> Result<Instance, Fail>
    ensures { IfOk result (λ inst. inst ≡ fresh_day inst.parts) }
{
    let InputKept { story, batches: _ } = kept_in(alloc, folder)?;
    let InputStory { inst, events: _ } = story;
    Ok(inst)
}

/// A day that is made up, of this seed and size, before any batch.
pub(super) fn made_up(alloc: Global, seed: u32, size: u32) -> Result<Instance, Fail>
    requires { IsSize size }
{
    let inputs = generate(alloc, seed, size)?;
    let mut folder = MemFolder::new(inputs, Vec::new(alloc), Vec::new(alloc));
    day_in(alloc, &mut folder)
}

/// The day of these texts.
pub(super) fn day_of(alloc: Global, changed: Texts<'_>, day: Texts<'_>) -> Result<Instance, Fail>
    ensures { IfOk result (λ inst. inst ≡ fresh_day inst.parts) }
{
    let mut folder = folder_of(alloc, changed, day)?;
    day_in(alloc, &mut folder)
}

/// What the walks' day is told.
#[derive(Clone, Copy)]
pub(super) enum Orders {
    /// Nothing: all leave as scheduled.
    None,
    /// A delay, a cancellation, a breakdown and two closures, before any leg of the window has left.
    Told,
    /// The same when some legs have left, and their passengers with them.
    ToldLater,
}

/// Tells a day these batches, while its schedule is flown.
fn tell(alloc: Global, inst: &mut Instance, batches: &[Batch]) -> Result<(), Fail> {
    for batch in batches {
        if !can_add(inst, batch) {
            return Err(Fail::new("the day cannot take a batch"));
        }
        let plan = inst.schedule(alloc)?;
        inst.add(alloc, &plan, batch)?;
    }
    Ok(())
}

/// The walks' day, once it was told these orders while its schedule was flown.
pub(super) fn told(alloc: Global, orders: Orders) -> Result<Instance, Fail> {
    let feed = match orders {
        Orders::None => "1,none\n",
        Orders::Told => TOLD,
        Orders::ToldLater => TOLD_LATER,
    };
    let mut folder = folder_of(alloc, &[(File::Feed, feed)], WALKED)?;
    let InputKept { story, batches } = kept_in(alloc, &mut folder)?;
    let InputStory {
        mut inst,
        events: _,
    } = story;
    tell(alloc, &mut inst, batches.as_slice())?;
    Ok(inst)
}
