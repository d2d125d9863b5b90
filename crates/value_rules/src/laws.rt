//! Laws of rules on the values of literals.

ghost use Rattle.value_rules.specs.Laws.{FindTogether};

/// Rules in one walk find what each of them finds alone, in another order.
pub fn together_is_alone()
    ensures { FindTogether }
{}
