//! From two texts to a choice: `all`, `none`, or lists, whose items commas part. What an item says is in
//! `choice_items`.

ghost use Rattle.std.specs.Prelude.{◌≡◌, OnOk, map};
ghost use Rattle.disk_memory.specs.Choice.{with_fate};
ghost use Rattle.cmd_words.specs.ChoiceTexts.{Answers, Adds, choice_of, stands_of, each_of, stand_of, tear_of, all_of, text_at};

use crate::choice_items::{parts, tear_of, write_of};
use crate::choice_refusal::ChoiceRefusal;
use base_types::NoMemory;
use disk_memory::{Choice, Fate, Named};
use std::alloc::Global;

/// The choice that these texts say: which pending writes stand, and which are torn. The texts are described
/// in docs/CRASHES.md.
///
/// # Errors
/// A text is none of those, or out of memory.
pub fn parse_choice(alloc: Global, stand: &str, tear: Option<&str>) -> Result<Choice, ChoiceRefusal>
    ensures { Answers (choice_of stand.now (text_at tear.entry)) result }
{
    let mut choice = stands_of(alloc, stand)?;
    match tear {
        None => Ok(choice),
        Some(tear) => {
            add_tears(alloc, &mut choice, tear.as_bytes())?;
            Ok(choice)
        }
    }
}

fn stands_of(alloc: Global, text: &str) -> Result<Choice, ChoiceRefusal>
    ensures { Answers (stands_of text.now) result }
{
    if text == "all" {
        return Ok(Choice::all(alloc));
    }
    if text == "none" {
        return Ok(Choice::none(alloc));
    }
    let mut choice = Choice::none(alloc);
    add_stands(alloc, &mut choice, text.as_bytes())?;
    Ok(choice)
}

fn add_stands(alloc: Global, choice: &mut Choice, text: &[u8]) -> Result<(), ChoiceRefusal>
    ensures { Adds choice.old (each_of stand_of text.now) choice.new result }
{
    let items = parts(alloc, text, b',')?;
    add_each_stand(choice, items.as_slice())
}

fn add_each_stand(choice: &mut Choice, items: &[&[u8]]) -> Result<(), ChoiceRefusal>
    ensures { Adds choice.old (all_of (map stand_of (map (λ item. item.now) items.now))) choice.new result }
{
    for item in items {
        let Some(write) = write_of(item) else {
            return Err(ChoiceRefusal::BadText);
        };
        choice.stand(write)?;
    }
    Ok(())
}

fn add_tears(alloc: Global, choice: &mut Choice, text: &[u8]) -> Result<(), ChoiceRefusal>
    ensures { Adds choice.old (each_of tear_of text.now) choice.new result }
{
    let items = parts(alloc, text, b',')?;
    add_each_tear(alloc, choice, items.as_slice())
}

fn add_each_tear(alloc: Global, choice: &mut Choice, items: &[&[u8]]) -> Result<(), ChoiceRefusal>
    ensures { Adds choice.old (all_of (map tear_of (map (λ item. item.now) items.now))) choice.new result }
{
    for item in items {
        let Some(tear) = tear_of(alloc, item)? else {
            return Err(ChoiceRefusal::BadText);
        };
        add(choice, tear)?;
    }
    Ok(())
}

fn add(choice: &mut Choice, named: Named) -> Result<(), NoMemory>
    ensures { OnOk result (choice.new ≡ with_fate choice.old named.write named.fate) }
{
    match named.fate {
        Fate::Stands => choice.stand(named.write)?,
        Fate::Torn { bytes } => choice.tear(named.write, bytes)?,
    }
    Ok(())
}
