// What follows from what a link comes to.
ghost use Rattle.link_engine.specs.Link.{LinksAreOne};
ghost use Rattle.link_engine.specs.Plain.{PlainRunsAreOne};
ghost use Rattle.link_engine.specs.Texts.{LinkedTextsStand};

use image_writer::{laid_texts_are_of_jobs, text_stands_place_by_place};

/// A link of files with options comes to one thing and no other: a refusal, or an image.
pub fn links_are_one()
    ensures { LinksAreOne }
{}

/// Files come to one thing and no other without an image: a refusal, or how far their plain run goes.
pub fn plain_runs_are_one()
    ensures { PlainRunsAreOne }
{}

/// Where a link comes to an image, each place of its text has what is put there: a stub its words, a call its branch, a record its field or
/// rewritten word, each other byte of a section that of its file, and what lies between is zero.
pub fn linked_texts_stand()
    ensures { LinkedTextsStand }
{
    laid_texts_are_of_jobs();
    text_stands_place_by_place();
}
