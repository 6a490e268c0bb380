//! Laws of the definitions.

use markdown::laws::plain_texts_are_their_bytes;
use markdown_nodes::laws::{one_forest, seam};
use markdown_outline::laws::{
    headings_are_accepted, headings_are_passed_on, headings_have_the_outline,
    passed_on_headings_are_not_refused, passed_on_headings_have_the_outline,
};
use markdown_words::laws::events_say_the_text;

#[test]
fn laws_are_functions_that_take_and_give_nothing() {
    one_forest();
    seam();
    plain_texts_are_their_bytes();
    headings_have_the_outline();
    headings_are_accepted();
    headings_are_passed_on();
    passed_on_headings_have_the_outline();
    passed_on_headings_are_not_refused();
    events_say_the_text();
}
