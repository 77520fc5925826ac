//! The words of a line that change a mask, and the words that tell one.

ghost use Rattle.std.specs.Prelude.{◌≡◌, ◌≢◌, ◌++◌, IfErr, IfOk, List, MatchOption, OnOk, map, string_bytes};
ghost use Rattle.nfs3mask.specs.Changes.{change_of, change_text, change_word, changes_of, mask_text, ways_after};
ghost use Rattle.nfs3mask.specs.machinery.ChangeWords.{AreChanges};

use crate::line::asked::Change;
use crate::line::names::{way_name, way_named};
use masking3::{CLASSES, Class, Way, Ways};
use std::alloc::{AllocError, Global};

/// Returns what a word changes, if it is CLASS=WAY.
pub(crate) fn change(word: &str) -> Option<Change>
    ensures { MatchOption result ((change : Change) → word.now ≢ change_word change)
        (λ change. word.now ≡ change_word change) }
{
    let (class, way) = word.split_once('=')?;
    Some(Change {
        class: Class::by_name(class)?,
        way: way_named(way)?,
    })
}

/// Returns the usual ways, changed by these words one after another, or the first word that changes none.
pub(crate) fn changed_ways<'a>(words: &'a [String]) -> Result<Ways, &'a str>
    ensures ok { IfOk result (AreChanges (map string_bytes words.now)) }
    ensures err { IfErr result (λ word. (changes : List Change)
        → map string_bytes words.now ≢ map change_word changes) }
{
    let mut ways = Ways::usual();
    for word in words {
        match change(word.as_str()) {
            Some(change) => ways = ways.with(change.class, change.way),
            None => return Err(word.as_str()),
        }
    }
    Ok(ways)
}

/// Returns the words that tell a mask, each with a space before it: of each class, in the order of the
/// classes, what becomes of its values. On a command line they ask for the same mask.
///
/// # Errors
///
/// `AllocError` if memory ran out for the text.
pub fn ways_text(alloc: Global, ways: Ways) -> Result<String, AllocError>
    ensures text { IfOk result (λ text. string_bytes text ≡ mask_text ways) }
    ensures again { ways_after (changes_of ways) ≡ ways }
{
    let mut text = String::new(alloc);
    for class in CLASSES {
        push_change(&mut text, class, ways.way(class))?;
    }
    Ok(text)
}

/// Appends the word for a change, with a space before it.
fn push_change(text: &mut String, class: Class, way: Way) -> Result<(), AllocError>
    ensures { OnOk result
        (string_bytes text.new ≡ string_bytes text.old ++ change_text (change_of class way)) }
{
    text.push(' ')?;
    text.push_str(class.name())?;
    text.push('=')?;
    text.push_str(way_name(way))
}
