//! The text of an item of the crews.

ghost use Rattle.std.specs.Prelude.{◌≡◌, ◌++◌, OnOk};
ghost use Rattle.crew_rules.specs.Broken.{crew_of, crew_at};
ghost use Rattle.output_texts.specs.CrewText.{rule_name, crew_text};

use crew_rules::{CrewBroken, CrewInfo};
use desk_units::NoMem;

/// The name of the rule of an item.
fn rule_name(item: CrewBroken) -> &'static str
    ensures { result.now ≡ rule_name item }
{
    match item {
        CrewBroken::K1(_) => "K1",
        CrewBroken::K2(_) => "K2",
        CrewBroken::K3(_) => "K3",
        CrewBroken::K4(_) => "K4",
    }
}

/// The crew of an item, by its number.
fn crew_of(item: CrewBroken) -> u32
    ensures { result ≡ crew_of item }
{
    match item {
        CrewBroken::K1(crew) | CrewBroken::K2(crew) | CrewBroken::K3(crew) | CrewBroken::K4(crew) =>
            crew,
    }
}

/// The name of a crew, or nothing where there is none of this number.
#[tactic(auto, unfolding(crew_rules::specs::Broken::no_crew))]
fn name_of(crews: &[CrewInfo], number: u32) -> &[u8]
    ensures { result.now ≡ (crew_at crews.now number).name }
{
    match crews.get(number as usize) {
        Some(crew) => crew.name.as_slice(),
        None => b"",
    }
}

/// Adds that the crews keep their rules, or the first rule that is broken with the name of its crew. The only error is out of
/// memory.
pub fn push_crews(
    text: &mut Vec<u8>,
    crews: &[CrewInfo],
    item: Option<CrewBroken>,
) -> Result<(), NoMem>
    ensures { OnOk result (text.new.items ≡ text.old.items ++ crew_text crews.now item) }
{
    match item {
        None => {
            text.extend_from_slice(b"ok")?;
            Ok(())
        }
        Some(item) => {
            text.extend_from_slice(rule_name(item).as_bytes())?;
            text.push(b' ')?;
            text.extend_from_slice(name_of(crews, crew_of(item)))?;
            Ok(())
        }
    }
}
