//! Laws of emphasis, for all runs. Each is the contract of a function that takes and returns
//! nothing.

ghost use Rattle.markdown_attention.specs.Laws.{HaveNestedPairs, HaveOneResult};

/// Runs make at most one list of pairs: the page leaves no choice.
///
/// So `resolve` marks the pairs of the page, and no others.
pub fn runs_have_one_result()
    ensures { HaveOneResult }
{}

/// If runs follow each other, their pairs nest: of two pairs, one is before the other or inside it.
///
/// So an emphasis inside another ends before the outer one does.
pub fn runs_have_nested_pairs()
    ensures { HaveNestedPairs }
{}
