//! Laws of rules on names.

ghost use Rattle.reference_rules.specs.Laws.{FindTogether};

/// Rules in one pass find what each of them finds alone, in another order.
pub fn together_is_alone()
    ensures { FindTogether }
{}
