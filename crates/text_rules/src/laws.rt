//! Laws of rules that look at what stands between tokens.

ghost use Rattle.text_rules.specs.Laws.{FindTogether, PassComments};

/// Rules in one call find what each of them finds alone.
pub fn together_is_alone()
    ensures { FindTogether }
{}

/// A comment has no character of a token, and what follows it is read as if it weren't there.
pub fn comments_are_passed()
    ensures { PassComments }
{}
