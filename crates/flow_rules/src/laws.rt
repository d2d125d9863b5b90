//! Laws of rules on completions.

ghost use Rattle.flow_rules.specs.Laws.{FindTogether};

/// Rules in one walk find what each of them finds alone, in another order.
pub fn together_is_alone()
    ensures { FindTogether }
{}
